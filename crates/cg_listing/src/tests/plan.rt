//! Models in a line.
ghost use Rattle.std.specs.Prelude.{IfOk, All};
ghost use Rattle.cg_meaning.specs.Tree.{datings_of};
ghost use Rattle.cg_model.specs.Limits.{IsInPlace, AreInPlace, IsInRange, AreInRange};
ghost use Rattle.cg_model.specs.Node.{tree_of, trees_of};
ghost use Rattle.cg_model.specs.Group.{kind_in};

use cg_model::{Dating, GroupKind, Members, ModelTree, Name, Node};
use cg_num::Year;
use std::alloc::Global;
use std::test::Fail;

/// A statement without a name.
pub(crate) enum Plan<'a> {
    Date,
    /// A C_Date of this year, in cal BP.
    Exact(i32),
    Boundary,
    Sequence(&'a [Plan<'a>]),
    Phase(&'a [Plan<'a>]),
    After(&'a [Plan<'a>]),
    Before(&'a [Plan<'a>]),
}

pub(crate) fn model_of(alloc: Global, top: &[Plan]) -> Result<ModelTree, Fail> {
    Ok(ModelTree::new(None, members_of(alloc, GroupKind::Phase, top)?)?)
}

#[cycle(plans)]
fn members_of(alloc: Global, kind: GroupKind, plans: &[Plan]) -> Result<Members, Fail>
    ensures placed { IfOk result (λ members. AreInPlace (kind_in kind) (trees_of members)) }
    ensures ranged { IfOk result (λ members. AreInRange (trees_of members)) }
{
    let mut members = Members::new(alloc);
    for plan in plans {
        members.push(node_of(alloc, kind, plan)?)?;
    }
    Ok(members)
}

#[cycle(plans)]
fn node_of(alloc: Global, parent: GroupKind, plan: &Plan) -> Result<Node, Fail>
    ensures placed { IfOk result (λ node. IsInPlace (kind_in parent) (tree_of node)) }
    ensures ranged { IfOk result (λ node. All IsInRange (datings_of (tree_of node))) }
{
    let name = Name::new(alloc, "")?;
    match plan {
        Plan::Date => Ok(Node::Leaf(name, Dating::Free)),
        Plan::Exact(bp) => {
            let year = Year::of_bp(*bp as i64).ok_or("no year")?;
            Ok(Node::Leaf(name, Dating::Exact(year)))
        }
        Plan::Boundary if parent == GroupKind::Sequence => Ok(Node::Boundary(name)),
        Plan::Boundary => Err("a Boundary outside a Sequence")?,
        Plan::Sequence(plans) => Ok(Node::Sequence(
            name,
            members_of(alloc, GroupKind::Sequence, plans)?,
        )),
        Plan::Phase(plans) => Ok(Node::Phase(name, members_of(alloc, GroupKind::Phase, plans)?)),
        Plan::After(plans) => Ok(Node::After(name, members_of(alloc, GroupKind::After, plans)?)),
        Plan::Before(plans) => Ok(Node::Before(name, members_of(alloc, GroupKind::Before, plans)?)),
    }
}
