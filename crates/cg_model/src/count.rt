//! How many events and groups there are, and how deep they stand. Where a count passes `u32::MAX`, it is that.
ghost use Rattle.std.specs.Prelude.{◌≡◌, min};
ghost use Rattle.cg_meaning.specs.Tree.{count, count_all};
ghost use Rattle.cg_model.specs.Limits.{groups_of, groups_in, depth_of, depth_in};

use crate::node::{Members, Node};
use crate::view::View;

impl Node {
    ghost use Rattle.cg_model.specs.Node.{tree_of};

    /// How many events it has. Takes no memory.
    #[cycle(events)]
    pub fn events(&self) -> u32
        ensures { result ≡ min (count (tree_of self.now)) u32.MAX }
    {
        match self.view() {
            View::Leaf(_, _) | View::Boundary(_) => 1,
            View::Group(_, _, members) => members.events(),
        }
    }

    /// How many groups it has, itself included. Takes no memory.
    #[cycle(groups)]
    pub fn groups(&self) -> u32
        ensures { result ≡ min (groups_of (tree_of self.now)) u32.MAX }
    {
        match self.view() {
            View::Leaf(_, _) | View::Boundary(_) => 0,
            View::Group(_, _, members) => members.groups().saturating_add(1),
        }
    }

    #[cycle(depths)]
    pub(crate) fn depth(&self) -> u32
        ensures { result ≡ min (depth_of (tree_of self.now)) u32.MAX }
    {
        match self.view() {
            View::Leaf(_, _) | View::Boundary(_) => 1,
            View::Group(_, _, members) => members.depth().saturating_add(1),
        }
    }
}

impl Members {
    ghost use Rattle.cg_model.specs.Node.{trees_of};

    #[cycle(events)]
    pub(crate) fn events(&self) -> u32
        ensures { result ≡ min (count_all (trees_of self.now)) u32.MAX }
    {
        let mut sum: u32 = 0;
        for node in self.nodes() {
            sum = sum.saturating_add(node.events());
        }
        sum
    }

    #[cycle(groups)]
    pub(crate) fn groups(&self) -> u32
        ensures { result ≡ min (groups_in (trees_of self.now)) u32.MAX }
    {
        let mut sum: u32 = 0;
        for node in self.nodes() {
            sum = sum.saturating_add(node.groups());
        }
        sum
    }

    #[cycle(depths)]
    pub(crate) fn depth(&self) -> u32
        ensures { result ≡ min (depth_in (trees_of self.now)) u32.MAX }
    {
        let mut deepest = 0;
        for node in self.nodes() {
            deepest = node.depth().max(deepest);
        }
        deepest
    }
}
