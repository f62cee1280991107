//! The datings of a node's events, in the order of the text.
ghost use Rattle.std.specs.Prelude.{◌≡◌, ◌++◌, map, OnOk};
ghost use Rattle.cg_meaning.specs.Tree.{datings_of, datings_of_all};
ghost use Rattle.cg_model.specs.Dating.{dating_of};
ghost use Rattle.cg_model.specs.Node.{tree_of, trees_of};

use cg_model::{Dating, Members, Node};
use cg_num::NoMemory;

/// Puts those of a node behind the others. A Boundary's is `Free`.
#[cycle(datings)]
pub(crate) fn push_datings(datings: &mut Vec<Dating>, node: &Node) -> Result<(), NoMemory>
    ensures { OnOk result (map dating_of datings.new.items
        ≡ map dating_of datings.old.items ++ datings_of (tree_of node.now)) }
{
    match node {
        Node::Leaf(_, dating) => datings.push(*dating)?,
        Node::Boundary(_) => datings.push(Dating::Free)?,
        Node::Sequence(_, members)
        | Node::Phase(_, members)
        | Node::After(_, members)
        | Node::Before(_, members) => push_all(datings, members)?,
    }
    Ok(())
}

/// Puts those of all members behind the others.
#[cycle(datings)]
pub(crate) fn push_all(datings: &mut Vec<Dating>, members: &Members) -> Result<(), NoMemory>
    ensures { OnOk result (map dating_of datings.new.items
        ≡ map dating_of datings.old.items ++ datings_of_all (trees_of members.now)) }
{
    for node in members.nodes() {
        push_datings(datings, node)?;
    }
    Ok(())
}
