ghost use Rattle.std.specs.Prelude.{◌≡◌};
ghost use Rattle.cg_model.specs.Node.{tree_of};
ghost use Rattle.cg_sharing.specs.Edit.{kind_of};

use cg_model::{GroupKind, Limit, Node, View};

/// What a node is.
#[derive(Clone, Copy, Debug, PartialEq, Eq)]
pub enum Kind {
    /// An event with a dating.
    Leaf,
    /// The beginning or the end of a span.
    Boundary,
    /// A group of members in order.
    Sequence,
    /// A group of members without an order, as the root is.
    Phase,
    /// A group that only what follows is bound by.
    After,
    /// A group that only what precedes is bound by.
    Before,
}

impl Kind {
    ghost use Rattle.cg_edit.specs.Plain.{kind_in};

    /// What the node is. Takes no memory.
    pub fn of(node: &Node) -> Kind
        ensures { kind_in result ≡ kind_of (tree_of node.now) }
    {
        match node.view() {
            View::Leaf(_, _) => Kind::Leaf,
            View::Boundary(_) => Kind::Boundary,
            View::Group(kind, _, _) => Kind::from(kind),
        }
    }
}

impl From<GroupKind> for Kind {
    ghost use Rattle.std.specs.Prelude.{◌≡◌};
    ghost use Rattle.cg_model.specs.Group as group;
    ghost use Rattle.cg_sharing.specs.Edit.{a_group};
    ghost use Rattle.cg_edit.specs.Plain.{kind_in};

    ghost from_gives = { λ kind node. kind_in node ≡ a_group (group.kind_in kind) };

    fn from(kind: GroupKind) -> Kind {
        match kind {
            GroupKind::Sequence => Kind::Sequence,
            GroupKind::Phase => Kind::Phase,
            GroupKind::After => Kind::After,
            GroupKind::Before => Kind::Before,
        }
    }
}

/// Why a change is refused. The first that holds is told.
#[derive(Clone, Copy, Debug, PartialEq, Eq)]
pub enum EditFault {
    /// No node has the name.
    NoName,
    /// So many nodes have the name, two or more.
    Ambiguous(u32),
    /// The named node is of this kind, which has no dating to set or no members; or a Boundary would stand in a group of
    /// this kind.
    WrongKind(Kind),
    /// The changed model would pass this limit.
    Limit(Limit),
    /// There was no memory for it.
    NoMemory,
}

impl From<cg_num::NoMemory> for EditFault {
    ghost use Rattle.std.specs.Prelude.{◌≡◌};
    ghost use Rattle.cg_edit.specs.declared.fault.EditFault.TheVariants.{NoMemory};

    ghost from_gives = { λ _ e. e ≡ NoMemory };

    fn from(_refused: cg_num::NoMemory) -> EditFault {
        EditFault::NoMemory
    }
}
