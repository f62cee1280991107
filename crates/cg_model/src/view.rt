ghost use Rattle.std.specs.Prelude.{◌≡◌};
ghost use Rattle.cg_model.specs.Node.{tree_of};
ghost use Rattle.cg_model.specs.View.{tree_seen, node_seen, IsDeeper};

use crate::dating::Dating;
use crate::group::GroupKind;
use crate::name::Name;
use crate::node::{Members, Node};

/// A node as it is seen where all kinds of groups are alike.
#[derive(Clone, Copy)]
pub enum View<'a> {
    /// An event with its dating.
    Leaf(&'a Name, &'a Dating),
    /// The beginning or the end of a span.
    Boundary(&'a Name),
    /// A group of this kind with its members.
    Group(GroupKind, &'a Name, &'a Members),
}

impl Node {
    /// What the node is. Takes no memory.
    pub fn view(&self) -> View<'_>
        ensures tree { tree_of self.now ≡ tree_seen result }
        ensures node { self.now ≡ node_seen result }
        ensures deeper { IsDeeper self.now result }
    {
        match self {
            Node::Leaf(name, dating) => View::Leaf(name, dating),
            Node::Boundary(name) => View::Boundary(name),
            Node::Sequence(name, members) => View::Group(GroupKind::Sequence, name, members),
            Node::Phase(name, members) => View::Group(GroupKind::Phase, name, members),
            Node::After(name, members) => View::Group(GroupKind::After, name, members),
            Node::Before(name, members) => View::Group(GroupKind::Before, name, members),
        }
    }
}
