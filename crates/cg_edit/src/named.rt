//! The test for a name.
ghost use Rattle.std.specs.Prelude.{◌≡◌};
ghost use Rattle.cg_model.specs.Found.{has_name};
ghost use Rattle.cg_model.specs.Node.{tree_of};

use cg_model::{Name, Node};

pub(crate) fn has_name(node: &Node, name: &Name) -> bool
    ensures { result ≡ has_name name.now (tree_of node.now) }
{
    node.name().text() == name.text()
}
