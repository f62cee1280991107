ghost use Rattle.std.specs.Prelude.{◌-◌, ◌<◌, ◌^◌, length, IfOk, IfErr};
ghost use Rattle.cg_model.specs.Node.{tree_of};
ghost use Rattle.cg_grammar.specs.Text.{Spells, SpellsStatement, FailsBy};

use crate::read::read;
use crate::reader::Reader;
use cg_grammar::{Base, CqlFault};
use cg_model::{ModelTree, Node};
use std::alloc::Global;

/// The model that a file spells, or the line and the cause of the first token at which reading can't go on. A file spells
/// one model or has one such fault, so each comes exactly where it holds, want of memory aside.
pub fn read_model(alloc: Global, bytes: &[u8]) -> Result<ModelTree, CqlFault>
    requires { length bytes.now < 2 ^ 32 - 1 }
    ensures ok { IfOk result (λ model. Spells bytes.now model) }
    ensures fault { IfErr result (λ fault. FailsBy Base.Script bytes.now fault) }
{
    match read(alloc, Base::Script, bytes) {
        Err(fault) => Err(fault),
        Ok(reader) => {
            let Reader {
                alloc: _,
                base: _,
                frames: _,
                members,
                curve,
                events: _,
                groups: _,
                part: _,
            } = reader;
            match ModelTree::new(curve, members) {
                Ok(model) => Ok(model),
                Err(_) => unreachable!(),
            }
        }
    }
}

/// The statement that stands alone in a text, one node and the end, or the first fault as of a file. A Boundary may stand
/// at its top. A statement that is read is within the limits of a model.
pub fn read_statement(alloc: Global, bytes: &[u8]) -> Result<Node, CqlFault>
    requires { length bytes.now < 2 ^ 32 - 1 }
    ensures ok { IfOk result (λ node. SpellsStatement bytes.now (tree_of node)) }
    ensures fault { IfErr result (λ fault. FailsBy Base.Single bytes.now fault) }
{
    match read(alloc, Base::Single, bytes) {
        Err(fault) => Err(fault),
        Ok(reader) => match reader.members.get(0).copy(alloc) {
            Ok(node) => Ok(node),
            Err(_) => Err(CqlFault::no_memory()),
        },
    }
}
