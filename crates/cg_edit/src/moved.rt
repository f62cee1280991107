//! Copies of a tree in which a node comes before the named one, or the named one goes or has a new name.
ghost use Rattle.std.specs.Prelude.{◌≡◌, IfOk, OnOk};
ghost use Rattle.cg_model.specs.Node.{tree_of, trees_of, trees_with};
ghost use Rattle.cg_sharing.specs.Edit.{preceded, preceded_all, without, without_all, renamed, renamed_all, new_name};

use crate::named::has_name;
use cg_model::{Members, Name, Node, View};
use cg_num::NoMemory;
use std::alloc::Global;

#[cycle(precedes)]
fn preceded(alloc: Global, node: &Node, name: &Name, added: &Node) -> Result<Node, NoMemory>
    ensures { IfOk result (λ after. tree_of after ≡ preceded name.now (tree_of added.now) (tree_of node.now)) }
{
    match node.view() {
        View::Leaf(_, _) | View::Boundary(_) => node.copy(alloc),
        View::Group(kind, other, members) => {
            let after = preceded_all(alloc, members, name, added)?;
            Ok(kind.node(other.copy(alloc)?, after))
        }
    }
}

// equal members, but that a further node stands just before each one of this name
#[cycle(precedes)]
pub(crate) fn preceded_all(
    alloc: Global,
    members: &Members,
    name: &Name,
    added: &Node,
) -> Result<Members, NoMemory>
    ensures { IfOk result (λ after. trees_of after ≡ preceded_all name.now (tree_of added.now) (trees_of members.now)) }
{
    let mut after = Members::new(alloc);
    for node in members.nodes() {
        let same = preceded(alloc, node, name, added)?;
        if has_name(node, name) {
            push_both(alloc, &mut after, added, same)?;
        } else {
            after.push(same)?;
        }
    }
    Ok(after)
}

// puts a copy of the first node behind the others, and the second one behind that
fn push_both(
    alloc: Global,
    members: &mut Members,
    first: &Node,
    second: Node,
) -> Result<(), NoMemory>
    ensures { OnOk result (trees_of members.new ≡ trees_with (trees_with (trees_of members.old) (tree_of first.now)) (tree_of second)) }
{
    members.push(first.copy(alloc)?)?;
    members.push(second)
}

#[cycle(leaves)]
fn without(alloc: Global, node: &Node, name: &Name) -> Result<Node, NoMemory>
    ensures { IfOk result (λ after. tree_of after ≡ without name.now (tree_of node.now)) }
{
    match node.view() {
        View::Leaf(_, _) | View::Boundary(_) => node.copy(alloc),
        View::Group(kind, other, members) => {
            let after = without_all(alloc, members, name)?;
            Ok(kind.node(other.copy(alloc)?, after))
        }
    }
}

// equal members, but for each node of this name and all that it holds
#[cycle(leaves)]
pub(crate) fn without_all(
    alloc: Global,
    members: &Members,
    name: &Name,
) -> Result<Members, NoMemory>
    ensures { IfOk result (λ after. trees_of after ≡ without_all name.now (trees_of members.now)) }
{
    let mut after = Members::new(alloc);
    for node in members.nodes() {
        if !has_name(node, name) {
            after.push(without(alloc, node, name)?)?;
        }
    }
    Ok(after)
}

#[cycle(renames)]
fn renamed(alloc: Global, node: &Node, name: &Name, new: &Name) -> Result<Node, NoMemory>
    ensures { IfOk result (λ after. tree_of after ≡ renamed name.now new.now (tree_of node.now)) }
{
    let called = new_name(alloc, node.name(), name, new)?;
    match node.view() {
        View::Leaf(_, dating) => Ok(Node::Leaf(called, *dating)),
        View::Boundary(_) => Ok(Node::Boundary(called)),
        View::Group(kind, _, members) => {
            let after = renamed_all(alloc, members, name, new)?;
            Ok(kind.node(called, after))
        }
    }
}

// equal members, but for the name of each node of this name
#[cycle(renames)]
pub(crate) fn renamed_all(
    alloc: Global,
    members: &Members,
    name: &Name,
    new: &Name,
) -> Result<Members, NoMemory>
    ensures { IfOk result (λ after. trees_of after ≡ renamed_all name.now new.now (trees_of members.now)) }
{
    let mut after = Members::new(alloc);
    for node in members.nodes() {
        after.push(renamed(alloc, node, name, new)?)?;
    }
    Ok(after)
}

fn new_name(alloc: Global, other: &Name, name: &Name, new: &Name) -> Result<Name, NoMemory>
    ensures { IfOk result (λ called. called ≡ new_name name.now new.now other.now) }
{
    if other.text() == name.text() {
        new.copy(alloc)
    } else {
        other.copy(alloc)
    }
}
