//! The Boundary pair of each event.
ghost use Rattle.std.specs.Prelude.{◌≡◌, ◌+◌, ◌≤◌, ◌++◌, OnOk, IfOk, None, length};
ghost use Rattle.cg_meaning.specs.Tree.{count, count_all, root_of};
ghost use Rattle.cg_meaning.specs.Pairs.{boundary_after, pairs_of, pairs_of_all, pairs_in_sequence, boundary_pairs};
ghost use Rattle.cg_model.specs.Member.{trees_from, is_boundary};
ghost use Rattle.cg_model.specs.Node.{tree_of, trees_of};
ghost use Rattle.cg_listing.specs.Member.{pair_for, boundary_before};

use crate::paths::events;
use cg_model::{Members, ModelTree, Node};
use cg_num::NoMemory;
use std::alloc::Global;

/// The numbers of both Boundaries of each event's pair. `None` for one without a pair.
pub(crate) fn pairs(
    alloc: Global,
    model: &ModelTree,
) -> Result<Vec<Option<(usize, usize)>>, NoMemory>
    ensures { IfOk result (λ pairs. pairs.items ≡ boundary_pairs (root_of model.now)) }
{
    let mut pairs = Vec::new(alloc);
    put_all(model.top(), None, &mut pairs)?;
    Ok(pairs)
}

// The events are numbered from how many pairs there are.
#[cycle(pairs)]
fn put(
    node: &Node,
    outer: Option<(usize, usize)>,
    pairs: &mut Vec<Option<(usize, usize)>>,
) -> Result<(), NoMemory>
    requires { length pairs.old.items + count (tree_of node.now) ≤ usize.MAX }
    ensures { OnOk result (pairs.new.items ≡ pairs.old.items ++ pairs_of outer (length pairs.old.items) (tree_of node.now)) }
{
    match node {
        Node::Leaf(_, _) | Node::Boundary(_) => {
            pairs.push(outer)?;
            Ok(())
        }
        Node::Sequence(_, members) => put_in_sequence(members, outer, pairs),
        Node::Phase(_, members) => put_all(members, outer, pairs),
        Node::After(_, members) | Node::Before(_, members) => put_all(members, None, pairs),
    }
}

#[cycle(pairs)]
fn put_all(
    members: &Members,
    outer: Option<(usize, usize)>,
    pairs: &mut Vec<Option<(usize, usize)>>,
) -> Result<(), NoMemory>
    requires { length pairs.old.items + count_all (trees_of members.now) ≤ usize.MAX }
    ensures { OnOk result (pairs.new.items ≡ pairs.old.items ++ pairs_of_all outer (length pairs.old.items) (trees_of members.now)) }
{
    for node in members.nodes() {
        put(node, outer, pairs)?;
    }
    Ok(())
}

#[cycle(pairs)]
fn put_in_sequence(
    members: &Members,
    outer: Option<(usize, usize)>,
    pairs: &mut Vec<Option<(usize, usize)>>,
) -> Result<(), NoMemory>
    requires { length pairs.old.items + count_all (trees_of members.now) ≤ usize.MAX }
    ensures { OnOk result (pairs.new.items ≡ pairs.old.items ++ pairs_in_sequence outer None (length pairs.old.items) (trees_of members.now)) }
{
    let mut before = None;
    for (place, node) in members.nodes().iter().enumerate() {
        let number = pairs.len();
        let after = boundary_after(members, place + 1, number + events(node));
        put(node, pair_for(node, before, after, outer), pairs)?;
        before = boundary_before(node, before, number);
    }
    Ok(())
}

fn is_boundary(node: &Node) -> bool
    ensures { result ≡ is_boundary (tree_of node.now) }
{
    matches!(node, Node::Boundary(_))
}

// what a member of a Sequence hands down
fn pair_for(
    node: &Node,
    before: Option<usize>,
    after: Option<usize>,
    outer: Option<(usize, usize)>,
) -> Option<(usize, usize)>
    ensures { result ≡ pair_for (tree_of node.now) before after outer }
{
    match (before, after) {
        (Some(before), Some(after)) if !is_boundary(node) => Some((before, after)),
        _ => outer,
    }
}

// the nearest Boundary before what follows the member, whose events are numbered from here
fn boundary_before(node: &Node, before: Option<usize>, number: usize) -> Option<usize>
    ensures { result ≡ boundary_before (tree_of node.now) before number }
{
    if is_boundary(node) {
        Some(number)
    } else {
        before
    }
}

// the first Boundary among the members from this place on, whose events are numbered from here
fn boundary_after(members: &Members, from: usize, number: usize) -> Option<usize>
    requires { number + count_all (trees_from members.now from) ≤ usize.MAX }
    ensures { result ≡ boundary_after number (trees_from members.now from) }
{
    let mut next = number;
    for place in from..members.len() {
        let node = members.get(place);
        if is_boundary(node) {
            return Some(next);
        }
        next += events(node);
    }
    None
}
