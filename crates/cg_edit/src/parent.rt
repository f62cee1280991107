//! The group in which a name stands.
ghost use Rattle.std.specs.Prelude.{◌≡◌, option_map};
ghost use Rattle.cg_model.specs.Group.{kind_in};
ghost use Rattle.cg_model.specs.Node.{tree_of, trees_of};
ghost use Rattle.cg_sharing.specs.Edit.{parent_below, parent_in};

use crate::named::has_name;
use cg_model::{GroupKind, Members, Name, Node, View};

#[cycle(parents)]
fn parent_below(name: &Name, node: &Node) -> Option<GroupKind>
    ensures { option_map kind_in result ≡ parent_below name.now (tree_of node.now) }
{
    match node.view() {
        View::Leaf(_, _) | View::Boundary(_) => None,
        View::Group(kind, _, members) => parent_in(name, kind, members),
    }
}

// the kind of the group of which the first node of this name is a member: of this one, or of one below it
#[cycle(parents)]
pub(crate) fn parent_in(name: &Name, kind: GroupKind, members: &Members) -> Option<GroupKind>
    ensures { option_map kind_in result ≡ parent_in name.now (kind_in kind) (trees_of members.now) }
{
    for node in members.nodes() {
        if has_name(node, name) {
            return Some(kind);
        }
        let found = parent_below(name, node);
        if found.is_some() {
            return found;
        }
    }
    None
}
