//! Copies of a tree in which the named node is changed.
ghost use Rattle.std.specs.Prelude.{◌≡◌, IfOk};
ghost use Rattle.cg_model.specs.Dating.{dating_of};
ghost use Rattle.cg_model.specs.Node.{tree_of, trees_of, trees_with};
ghost use Rattle.cg_sharing.specs.Edit.{dated, dated_all, extended, extended_all};

use cg_model::{Dating, Members, Name, Node, View};
use cg_num::NoMemory;
use std::alloc::Global;

#[cycle(dates)]
fn dated(alloc: Global, node: &Node, name: &Name, dating: Dating) -> Result<Node, NoMemory>
    ensures { IfOk result (λ after. tree_of after ≡ dated name.now (dating_of dating) (tree_of node.now)) }
{
    match node.view() {
        View::Leaf(other, before) => {
            let new = if other.text() == name.text() {
                dating
            } else {
                *before
            };
            Ok(Node::Leaf(other.copy(alloc)?, new))
        }
        View::Boundary(other) => Ok(Node::Boundary(other.copy(alloc)?)),
        View::Group(kind, other, members) => {
            let after = dated_all(alloc, members, name, dating)?;
            Ok(kind.node(other.copy(alloc)?, after))
        }
    }
}

// equal members, but for the dating of each leaf of this name
#[cycle(dates)]
pub(crate) fn dated_all(
    alloc: Global,
    members: &Members,
    name: &Name,
    dating: Dating,
) -> Result<Members, NoMemory>
    ensures { IfOk result (λ after. trees_of after ≡ dated_all name.now (dating_of dating) (trees_of members.now)) }
{
    let mut after = Members::new(alloc);
    for node in members.nodes() {
        after.push(dated(alloc, node, name, dating)?)?;
    }
    Ok(after)
}

#[cycle(extends)]
fn extended(alloc: Global, node: &Node, name: &Name, added: &Node) -> Result<Node, NoMemory>
    ensures { IfOk result (λ after. tree_of after ≡ extended name.now (tree_of added.now) (tree_of node.now)) }
{
    match node.view() {
        View::Leaf(_, _) | View::Boundary(_) => node.copy(alloc),
        View::Group(kind, other, members) if other.text() == name.text() => {
            let after = longer(alloc, members, added)?;
            Ok(kind.node(other.copy(alloc)?, after))
        }
        View::Group(kind, other, members) => {
            let after = extended_all(alloc, members, name, added)?;
            Ok(kind.node(other.copy(alloc)?, after))
        }
    }
}

// equal members, but that each group of this name has one more
#[cycle(extends)]
pub(crate) fn extended_all(
    alloc: Global,
    members: &Members,
    name: &Name,
    added: &Node,
) -> Result<Members, NoMemory>
    ensures { IfOk result (λ after. trees_of after ≡ extended_all name.now (tree_of added.now) (trees_of members.now)) }
{
    let mut after = Members::new(alloc);
    for node in members.nodes() {
        after.push(extended(alloc, node, name, added)?)?;
    }
    Ok(after)
}

// equal members with one more behind them
fn longer(alloc: Global, members: &Members, added: &Node) -> Result<Members, NoMemory>
    ensures { IfOk result (λ after. trees_of after ≡ trees_with (trees_of members.now) (tree_of added.now)) }
{
    let mut all = members.copy(alloc)?;
    all.push(added.copy(alloc)?)?;
    Ok(all)
}
