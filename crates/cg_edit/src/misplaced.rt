//! Where a Boundary would stand out of place.
ghost use Rattle.std.specs.Prelude.{◌≡◌, option_map};
ghost use Rattle.cg_model.specs.Group as group;
ghost use Rattle.cg_model.specs.Node.{tree_of, trees_of};
ghost use Rattle.cg_sharing.specs.Edit.{misplaced_in, misplaced_in_all, misplaced_under};
ghost use Rattle.cg_edit.specs.Plain.{kind_in};

use crate::fault::Kind;
use cg_model::{GroupKind, Members, Node, View};

// the group in which a Boundary would stand out of place, were the node a member of a group of this kind
#[cycle(misplaced)]
fn misplaced(node: &Node, parent: GroupKind) -> Option<GroupKind>
    ensures { option_map group.kind_in result ≡ misplaced_in (group.kind_in parent) (tree_of node.now) }
{
    match node.view() {
        View::Leaf(_, _) => None,
        View::Boundary(_) => match parent {
            GroupKind::Sequence => None,
            GroupKind::Phase | GroupKind::After | GroupKind::Before => Some(parent),
        },
        View::Group(kind, _, members) => misplaced_among(members, kind),
    }
}

#[cycle(misplaced)]
fn misplaced_among(members: &Members, parent: GroupKind) -> Option<GroupKind>
    ensures { option_map group.kind_in result ≡ misplaced_in_all (group.kind_in parent) (trees_of members.now) }
{
    for node in members.nodes() {
        let found = misplaced(node, parent);
        if found.is_some() {
            return found;
        }
    }
    None
}

// the same, where there is such a group
pub(crate) fn misplaced_under(parent: Option<GroupKind>, node: &Node) -> Option<Kind>
    ensures { option_map kind_in result ≡ misplaced_under (option_map group.kind_in parent) (tree_of node.now) }
{
    let kind = misplaced(node, parent?)?;
    Some(Kind::from(kind))
}
