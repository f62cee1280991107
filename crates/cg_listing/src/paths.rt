//! The events of a model: how many, and the path to each.
ghost use Rattle.std.specs.Prelude.{◌≡◌, ◌++◌, OnOk, IfOk, map, min};
ghost use Rattle.cg_meaning.specs.Tree.{Phase, Chronology, count, count_all, paths_of, paths_of_all, root_of};
ghost use Rattle.cg_model.specs.Group.{kind_in};
ghost use Rattle.cg_model.specs.Node.{tree_of, trees_of};

use crate::path::{Path, Step};
use cg_model::{GroupKind, Members, ModelTree, Node, View};
use cg_num::NoMemory;
use std::alloc::Global;

/// The path from the root to each event.
pub(crate) fn paths(alloc: Global, model: &ModelTree) -> Result<Vec<Path>, NoMemory>
    ensures { IfOk result (λ paths. paths.items ≡ paths_of (root_of model.now)) }
{
    let mut paths = Vec::new(alloc);
    put_all(
        alloc,
        GroupKind::Phase,
        model.top(),
        &Path::new(alloc),
        &mut paths,
    )?;
    Ok(paths)
}

#[cycle(paths)]
fn put(alloc: Global, node: &Node, to: &Path, paths: &mut Vec<Path>) -> Result<(), NoMemory>
    ensures { OnOk result (paths.new.items ≡ paths.old.items ++ map (λ path. to.now ++ path) (paths_of (tree_of node.now))) }
{
    match node.view() {
        View::Leaf(_, _) | View::Boundary(_) => {
            paths.push(to.copy(alloc)?)?;
            Ok(())
        }
        View::Group(kind, _, members) => put_all(alloc, kind, members, to, paths),
    }
}

#[cycle(paths)]
fn put_all(
    alloc: Global,
    kind: GroupKind,
    members: &Members,
    to: &Path,
    paths: &mut Vec<Path>,
) -> Result<(), NoMemory>
    ensures { OnOk result (paths.new.items
        ≡ paths.old.items ++ map (λ path. to.now ++ path) (paths_of_all (kind_in kind) 0 (trees_of members.now))) }
{
    for place in 0..members.len() {
        let inner = to.with(alloc, Step { kind, place })?;
        put(alloc, members.get(place), &inner, paths)?;
    }
    Ok(())
}

/// How many events a node has, or `usize::MAX` where that is less.
#[cycle(events)]
pub(crate) fn events(node: &Node) -> usize
    ensures { result ≡ min (count (tree_of node.now)) usize.MAX }
{
    match node.view() {
        View::Leaf(_, _) | View::Boundary(_) => 1,
        View::Group(_, _, members) => events_in(members),
    }
}

#[cycle(events)]
#[tactic(auto, using(crate::proofs::MemberLemmas::events_next))]
fn events_in(members: &Members) -> usize
    ensures { result ≡ min (count_all (trees_of members.now)) usize.MAX }
{
    let mut sum: usize = 0;
    for place in 0..members.len() {
        sum = sum.saturating_add(events(members.get(place)));
    }
    sum
}
