//! The elements of nodes.
ghost use Rattle.std.specs.Prelude.{◌≡◌, ◌+◌, ◌≤◌, IfOk};
ghost use Rattle.cg_meaning.specs.Tree.{count, count_all};
ghost use Rattle.cg_model.specs.Limits.{groups_in, groups_of};
ghost use Rattle.cg_model.specs.Member.{is_boundary};
ghost use Rattle.cg_model.specs.Node.{tree_of, trees_of};
ghost use Rattle.cg_message.specs.Element.{placed_in, places_in};
ghost use Rattle.cg_message.specs.Placed.{items_of, members_of, placed_of};

use crate::arranged::Arranged;
use crate::element::{Element, Elements};
use cg_model::{GroupKind, Members, Node};
use cg_num::NoMemory;
use std::alloc::Global;

/// The elements of members that bound each other in no way. Their events are numbered from `number`, and the first is at
/// the place.
#[cycle(arrange)]
pub(crate) fn members_of(
    alloc: Global,
    number: u32,
    place: u32,
    members: &Members,
) -> Result<Elements, NoMemory>
    requires events { number + count_all (trees_of members.now) ≤ 100 }
    requires nodes { place + count_all (trees_of members.now) + groups_in (trees_of members.now) ≤ 65535 }
    ensures { IfOk result (λ es. places_in es ≡ members_of number place (trees_of members.now)) }
{
    let mut next = number;
    let mut at = place;
    let mut elements = Elements::new(alloc);
    for node in members.nodes() {
        elements.push(element_of(alloc, next, at, node)?)?;
        next += node.events();
        at += node.events() + node.groups();
    }
    Ok(elements)
}

/// The element of a node at a place.
#[cycle(arrange)]
pub(crate) fn element_of(
    alloc: Global,
    number: u32,
    place: u32,
    node: &Node,
) -> Result<Element, NoMemory>
    requires events { number + count (tree_of node.now) ≤ 100 }
    requires nodes { place + count (tree_of node.now) + groups_of (tree_of node.now) ≤ 65535 }
    ensures { IfOk result (λ e. placed_in e ≡ placed_of number place (tree_of node.now)) }
{
    match node {
        Node::Leaf(_, _) | Node::Boundary(_) => Ok(Element::Event(number, place)),
        Node::Sequence(_, members) => {
            let items = items_of(alloc, number, place + 1, members)?;
            Ok(Element::Group(GroupKind::Sequence, place, items))
        }
        Node::Phase(_, members) => {
            let elements = members_of(alloc, number, place + 1, members)?;
            Ok(Element::Group(GroupKind::Phase, place, elements))
        }
        Node::After(_, members) => {
            let elements = members_of(alloc, number, place + 1, members)?;
            Ok(Element::Group(GroupKind::After, place, elements))
        }
        Node::Before(_, members) => {
            let elements = members_of(alloc, number, place + 1, members)?;
            Ok(Element::Group(GroupKind::Before, place, elements))
        }
    }
}

// The items of a Sequence: what stands between two Boundaries is one.
#[cycle(arrange)]
fn items_of(alloc: Global, number: u32, place: u32, members: &Members) -> Result<Elements, NoMemory>
    requires events { number + count_all (trees_of members.now) ≤ 100 }
    requires nodes { place + count_all (trees_of members.now) + groups_in (trees_of members.now) ≤ 65535 }
    ensures { IfOk result (λ es. places_in es ≡ items_of number place (trees_of members.now)) }
{
    let mut next = number;
    let mut at = place;
    let mut items = Arranged::new(alloc);
    for node in members.nodes() {
        if is_boundary(node) {
            items.push_boundary(alloc, next, at)?;
        } else {
            items.push(element_of(alloc, next, at, node)?)?;
        }
        next += node.events();
        at += node.events() + node.groups();
    }
    items.items()
}

fn is_boundary(node: &Node) -> bool
    ensures { result ≡ is_boundary (tree_of node.now) }
{
    matches!(node, Node::Boundary(_))
}
