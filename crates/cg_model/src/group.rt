ghost use Rattle.std.specs.Prelude.{◌≡◌};
ghost use Rattle.cg_meaning.specs.Tree as spec;
ghost use Rattle.cg_model.specs.Group.{kind_in, group_of};
ghost use Rattle.cg_model.specs.Node.{tree_of, trees_of};

use crate::name::Name;
use crate::node::{Members, Node};

/// The kind of a group.
#[derive(Clone, Copy, Debug, PartialEq, Eq)]
pub enum GroupKind {
    /// Members in order, the earliest first.
    Sequence,
    /// Members without an order, as the root's are.
    Phase,
    /// Members without an order. What follows the group isn't earlier than they are.
    After,
    /// Members without an order. What precedes the group isn't later than they are.
    Before,
}

impl GroupKind {
    /// The group of this kind with this name and these members. Takes no memory.
    pub fn node(self, name: Name, members: Members) -> Node
        ensures tree { tree_of result ≡ spec.Group (kind_in self) name (trees_of members) }
        ensures node { result ≡ group_of self name members }
    {
        match self {
            GroupKind::Sequence => Node::Sequence(name, members),
            GroupKind::Phase => Node::Phase(name, members),
            GroupKind::After => Node::After(name, members),
            GroupKind::Before => Node::Before(name, members),
        }
    }
}
