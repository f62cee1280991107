ghost use Rattle.std.specs.Prelude.{◌≡◌, IfOk, option_map};
ghost use Rattle.cg_model.specs.Node.{tree_of, trees_of};
ghost use Rattle.cg_sharing.specs.Edit.{target_of, kind_undated, kind_unfit, wrong_kind};
ghost use Rattle.cg_edit.specs.Plain.{kind_in};

use crate::fault::Kind;
use crate::misplaced::misplaced_under;
use crate::parent::parent_in;
use cg_model::{Dating, GroupKind, Members, Name, Node, View};
use cg_num::NoMemory;
use std::alloc::Global;

/// A change of the one node that has a name.
#[derive(Drop)]
pub enum Edit {
    /// The named leaf gets this dating.
    Set(Name, Dating),
    /// The named group gets this node behind its members.
    Add(Name, Node),
    /// This node comes just before the named one.
    InsertBefore(Name, Node),
    /// The named node goes, with all that it holds.
    Drop(Name),
    /// The first name gives way to the second.
    Rename(Name, Name),
}

impl Edit {
    ghost use Rattle.cg_edit.specs.Plain.{edit_in};

    /// An equal change.
    pub fn copy(&self, alloc: Global) -> Result<Edit, NoMemory>
        ensures { IfOk result (λ edit. edit ≡ self.now) }
    {
        match self {
            Edit::Set(name, dating) => Ok(Edit::Set(name.copy(alloc)?, *dating)),
            Edit::Add(name, node) => Ok(Edit::Add(name.copy(alloc)?, node.copy(alloc)?)),
            Edit::InsertBefore(name, node) => {
                Ok(Edit::InsertBefore(name.copy(alloc)?, node.copy(alloc)?))
            }
            Edit::Drop(name) => Ok(Edit::Drop(name.copy(alloc)?)),
            Edit::Rename(name, new) => Ok(Edit::Rename(name.copy(alloc)?, new.copy(alloc)?)),
        }
    }

    /// The name of the node that changes. Takes no memory.
    pub fn target(&self) -> &Name
        ensures { result.now ≡ target_of (edit_in self.now) }
    {
        match self {
            Edit::Set(name, _)
            | Edit::Add(name, _)
            | Edit::InsertBefore(name, _)
            | Edit::Drop(name)
            | Edit::Rename(name, _) => name,
        }
    }

    // the kind for which the change of this node of the statements is refused
    pub(crate) fn wrong_kind(&self, node: &Node, top: &Members) -> Option<Kind>
        ensures { option_map kind_in result ≡ wrong_kind (edit_in self.now) (tree_of node.now) (trees_of top.now) }
    {
        match self {
            Edit::Set(_, _) => undated(node),
            Edit::Add(_, added) => unfit(added, node),
            // the root is as a Phase
            Edit::InsertBefore(name, added) => {
                misplaced_under(parent_in(name, GroupKind::Phase, top), added)
            }
            Edit::Drop(_) | Edit::Rename(_, _) => None,
        }
    }
}

// the kind of a node that has no dating to set
fn undated(node: &Node) -> Option<Kind>
    ensures { option_map kind_in result ≡ kind_undated (tree_of node.now) }
{
    match node.view() {
        View::Leaf(_, _) => None,
        View::Boundary(_) | View::Group(_, _, _) => Some(Kind::of(node)),
    }
}

// the kind for which a further member of a node is refused
fn unfit(added: &Node, node: &Node) -> Option<Kind>
    ensures { option_map kind_in result ≡ kind_unfit (tree_of added.now) (tree_of node.now) }
{
    match node.view() {
        View::Leaf(_, _) | View::Boundary(_) => Some(Kind::of(node)),
        View::Group(kind, _, _) => misplaced_under(Some(kind), added),
    }
}
