//! The nodes and the events of a tree by their numbers, in the order of the text.
ghost use Rattle.std.specs.Prelude.{◌≡◌, ◌+◌, length, slice_get, IfOk, IfErr};
ghost use Rattle.cg_meaning.specs.Tree.{nodes_of, nodes_of_all, datings_of, datings_of_all};
ghost use Rattle.cg_model.specs.Dating.{dating_of};

use crate::dating::Dating;
use crate::node::{Members, Node};
use crate::view::View;

impl Node {
    ghost use Rattle.cg_model.specs.Node.{tree_of};

    /// The dating of the event of this number, or how many numbers are left for what follows. A Boundary has `free`.
    #[cycle(datings)]
    pub(crate) fn dating_at<'a>(&'a self, event: u32, free: &'a Dating) -> Result<&'a Dating, u32>
        requires { free.now ≡ Dating.Free }
        ensures here { IfOk result (λ dating. slice_get (datings_of (tree_of self.now)) event ≡ Some (dating_of dating.now)) }
        ensures past { IfErr result (λ left. left + length (datings_of (tree_of self.now)) ≡ event) }
    {
        match self.view() {
            View::Leaf(_, dating) if event == 0 => Ok(dating),
            View::Boundary(_) if event == 0 => Ok(free),
            View::Leaf(_, _) | View::Boundary(_) => Err(event - 1),
            View::Group(_, _, members) => members.dating_at(event, free),
        }
    }

    /// The node of this number, itself first, or how many numbers are left for what follows.
    #[cycle(locates)]
    pub(crate) fn locate(&self, place: u32) -> Result<&Node, u32>
        ensures here { IfOk result (λ node. slice_get (nodes_of (tree_of self.now)) place ≡ Some (tree_of node.now)) }
        ensures past { IfErr result (λ left. left + length (nodes_of (tree_of self.now)) ≡ place) }
    {
        if place == 0 {
            return Ok(self);
        }
        match self.view() {
            View::Leaf(_, _) | View::Boundary(_) => Err(place - 1),
            View::Group(_, _, members) => members.locate(place - 1),
        }
    }
}

impl Members {
    ghost use Rattle.cg_model.specs.Node.{tree_of, trees_of};

    #[cycle(datings)]
    pub(crate) fn dating_at<'a>(&'a self, event: u32, free: &'a Dating) -> Result<&'a Dating, u32>
        requires { free.now ≡ Dating.Free }
        ensures here { IfOk result (λ dating. slice_get (datings_of_all (trees_of self.now)) event ≡ Some (dating_of dating.now)) }
        ensures past { IfErr result (λ left. left + length (datings_of_all (trees_of self.now)) ≡ event) }
    {
        let mut left = event;
        for node in self.nodes() {
            match node.dating_at(left, free) {
                Ok(dating) => return Ok(dating),
                Err(rest) => left = rest,
            }
        }
        Err(left)
    }

    #[cycle(locates)]
    pub(crate) fn locate(&self, place: u32) -> Result<&Node, u32>
        ensures here { IfOk result (λ node. slice_get (nodes_of_all (trees_of self.now)) place ≡ Some (tree_of node.now)) }
        ensures past { IfErr result (λ left. left + length (nodes_of_all (trees_of self.now)) ≡ place) }
    {
        let mut left = place;
        for node in self.nodes() {
            match node.locate(left) {
                Ok(found) => return Ok(found),
                Err(rest) => left = rest,
            }
        }
        Err(left)
    }
}
