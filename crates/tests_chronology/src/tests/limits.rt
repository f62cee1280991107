//! The limits of a model, and trees past them.
ghost use Rattle.std.specs.Prelude.{IfOk};
ghost use Rattle.cg_meaning.specs.Tree.{Phase};
ghost use Rattle.cg_model.specs.Limits.{AreInPlace, AreInRange};
ghost use Rattle.cg_model.specs.Node.{trees_of};

use cg_model::{Dating, Limit, Members, ModelTree, Name, Node};
use std::alloc::Global;
use std::test::Fail;

// a leaf under groups, so that it stands at this depth
fn leaf_at(alloc: Global, depth: u32) -> Result<Members, Fail>
    ensures placed { IfOk result (λ members. AreInPlace Phase (trees_of members)) }
    ensures ranged { IfOk result (λ members. AreInRange (trees_of members)) }
{
    let mut members = Members::new(alloc);
    members.push(Node::Leaf(Name::new(alloc, "")?, Dating::Free))?;
    for _ in 1..depth {
        let mut outer = Members::new(alloc);
        outer.push(Node::Phase(Name::new(alloc, "")?, members))?;
        members = outer;
    }
    Ok(members)
}

fn with_leaves(alloc: Global, members: Members, count: u32) -> Result<Members, Fail>
    requires placed { AreInPlace Phase (trees_of members) }
    requires ranged { AreInRange (trees_of members) }
    ensures placed { IfOk result (λ members. AreInPlace Phase (trees_of members)) }
    ensures ranged { IfOk result (λ members. AreInRange (trees_of members)) }
{
    let mut members = members;
    for _ in 0..count {
        members.push(Node::Leaf(Name::new(alloc, "")?, Dating::Free))?;
    }
    Ok(members)
}

fn with_groups(alloc: Global, members: Members, count: u32) -> Result<Members, Fail>
    requires placed { AreInPlace Phase (trees_of members) }
    requires ranged { AreInRange (trees_of members) }
    ensures placed { IfOk result (λ members. AreInPlace Phase (trees_of members)) }
    ensures ranged { IfOk result (λ members. AreInRange (trees_of members)) }
{
    let mut members = members;
    for _ in 0..count {
        members.push(Node::After(Name::new(alloc, "")?, Members::new(alloc)))?;
    }
    Ok(members)
}

static LIMITS: [(u32, u32, u32, Option<Limit>); 6] = [
    (100, 60, 16, None),
    (101, 60, 16, Some(Limit::Events)),
    (100, 61, 16, Some(Limit::Groups)),
    (100, 60, 17, Some(Limit::Depth)),
    (101, 61, 17, Some(Limit::Events)),
    (100, 61, 17, Some(Limit::Groups)),
];

// so many events and groups, with a leaf at this depth
fn top_of(alloc: Global, events: u32, groups: u32, depth: u32) -> Result<Members, Fail>
    ensures placed { IfOk result (λ members. AreInPlace Phase (trees_of members)) }
    ensures ranged { IfOk result (λ members. AreInRange (trees_of members)) }
{
    // the leaf brings one event and the groups around it
    let deep = leaf_at(alloc, depth)?;
    let wide = with_leaves(alloc, deep, events.saturating_sub(1))?;
    with_groups(alloc, wide, groups.saturating_sub(depth).saturating_add(1))
}

// the limit that such a tree passes
fn limit_of(alloc: Global, events: u32, groups: u32, depth: u32) -> Result<Option<Limit>, Fail> {
    Ok(ModelTree::new(None, top_of(alloc, events, groups, depth)?).err())
}

/// A model at all limits: a leaf at depth 16 in Phases, 99 leaves, and 45 After groups.
pub(crate) fn widest(alloc: Global) -> Result<ModelTree, Fail> {
    Ok(ModelTree::new(None, top_of(alloc, 100, 60, 16)?)?)
}

#[test]
fn limits(rt: HostRuntime) -> Result<(), Fail> {
    for (events, groups, depth, want) in &LIMITS {
        let limit = limit_of(rt.alloc(), *events, *groups, *depth)?;
        assert!(rt; limit == *want, "{events} events");
    }
    Ok(())
}
