//! The elements of a model's nodes.
ghost use Rattle.std.specs.Prelude.{◌≡◌, ◌+◌, ◌≤◌, IfOk};
ghost use Rattle.cg_meaning.specs.Tree.{count, count_all};
ghost use Rattle.cg_model.specs.Member.{is_boundary};
ghost use Rattle.cg_model.specs.Node.{tree_of, trees_of};
ghost use Rattle.cg_part.specs.Elements.{element_of, items_of, members_of};
ghost use Rattle.cg_up.specs.Element.{element_in, elements_in};

use crate::arranged::Arranged;
use crate::element::{Element, Elements};
use cg_model::{GroupKind, Members, Node};
use cg_num::NoMemory;
use std::alloc::Global;

/// The elements of members that bound each other in no way. Their events are numbered from `number`.
#[cycle(arrange)]
pub(crate) fn members_of(
    alloc: Global,
    number: u32,
    members: &Members,
) -> Result<Elements, NoMemory>
    requires { number + count_all (trees_of members.now) ≤ 100 }
    ensures { IfOk result (λ es. elements_in es ≡ members_of number (trees_of members.now)) }
{
    let mut next = number;
    let mut elements = Elements::new(alloc);
    for node in members.nodes() {
        elements.push(element_of(alloc, next, node)?)?;
        next += node.events();
    }
    Ok(elements)
}

#[cycle(arrange)]
fn element_of(alloc: Global, number: u32, node: &Node) -> Result<Element, NoMemory>
    requires { number + count (tree_of node.now) ≤ 100 }
    ensures { IfOk result (λ e. element_in e ≡ element_of number (tree_of node.now)) }
{
    match node {
        Node::Leaf(_, _) | Node::Boundary(_) => Ok(Element::Event(number)),
        Node::Sequence(_, members) => {
            let items = items_of(alloc, number, members)?;
            Ok(Element::Group(GroupKind::Sequence, items))
        }
        Node::Phase(_, members) => {
            let elements = members_of(alloc, number, members)?;
            Ok(Element::Group(GroupKind::Phase, elements))
        }
        Node::After(_, members) => {
            let elements = members_of(alloc, number, members)?;
            Ok(Element::Group(GroupKind::After, elements))
        }
        Node::Before(_, members) => {
            let elements = members_of(alloc, number, members)?;
            Ok(Element::Group(GroupKind::Before, elements))
        }
    }
}

// The items of a Sequence: what stands between two Boundaries is one.
#[cycle(arrange)]
fn items_of(alloc: Global, number: u32, members: &Members) -> Result<Elements, NoMemory>
    requires { number + count_all (trees_of members.now) ≤ 100 }
    ensures { IfOk result (λ es. elements_in es ≡ items_of number (trees_of members.now)) }
{
    let mut next = number;
    let mut items = Arranged::new(alloc);
    for node in members.nodes() {
        if is_boundary(node) {
            items.push_boundary(alloc, next)?;
        } else {
            items.push(element_of(alloc, next, node)?)?;
        }
        next += node.events();
    }
    items.items()
}

fn is_boundary(node: &Node) -> bool
    ensures { result ≡ is_boundary (tree_of node.now) }
{
    matches!(node, Node::Boundary(_))
}
