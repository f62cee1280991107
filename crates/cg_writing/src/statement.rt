//! Statements, each a line, or for a group the lines from its opening to its closing brace.
ghost use Rattle.std.specs.Prelude.{◌≡◌, [], ◌++◌, ◌+◌, ◌≤◌, codes, OnOk};
ghost use Rattle.cg_meaning.specs.Tree as spec;
ghost use Rattle.cg_model.specs.Dating.{dating_of};
ghost use Rattle.cg_model.specs.Group.{kind_in, word_of_kind};
ghost use Rattle.cg_model.specs.Limits.{depth_of, depth_in};
ghost use Rattle.cg_model.specs.Node.{tree_of, trees_of};
ghost use Rattle.cg_writing.specs.Text.{name_text, call_text, line, statement_text, statements_text};

use crate::argument::{comma_of, push_name, push_values, word_of_dating};
use crate::line::{push_blanks, push_closing};
use cg_model::{Dating, GroupKind, Members, Name, Node, View};
use cg_num::NoMemory;
use std::alloc::Global;

fn word_of_kind(kind: GroupKind) -> &'static [u8]
    ensures { result.now ≡ word_of_kind (kind_in kind) }
{
    match kind {
        GroupKind::Sequence => b"Sequence",
        GroupKind::Phase => b"Phase",
        GroupKind::After => b"After",
        GroupKind::Before => b"Before",
    }
}

fn push_leaf(
    alloc: Global,
    name: &Name,
    dating: &Dating,
    depth: usize,
    text: &mut Vec<u8>,
) -> Result<(), NoMemory>
    ensures { OnOk result (text.new.items
        ≡ text.old.items ++ statement_text depth (spec.Leaf name.now (dating_of dating.now))) }
{
    push_blanks(depth, text)?;
    text.extend_from_slice(word_of_dating(dating))?;
    text.push(b'(')?;
    push_name(name, comma_of(dating), text)?;
    push_values(alloc, dating, text)?;
    text.extend_from_slice(b");\n")?;
    Ok(())
}

fn push_boundary(name: &Name, depth: usize, text: &mut Vec<u8>) -> Result<(), NoMemory>
    ensures { OnOk result (text.new.items ≡ text.old.items ++ statement_text depth (spec.Boundary name.now)) }
{
    push_blanks(depth, text)?;
    text.extend_from_slice(b"Boundary(")?;
    push_name(name, b"", text)?;
    text.extend_from_slice(b");\n")?;
    Ok(())
}

fn push_opening(
    kind: GroupKind,
    name: &Name,
    depth: usize,
    text: &mut Vec<u8>,
) -> Result<(), NoMemory>
    ensures { OnOk result (text.new.items
        ≡ text.old.items ++ line depth (call_text (word_of_kind (kind_in kind)) (name_text name.now []) ++ codes "{")) }
{
    push_blanks(depth, text)?;
    text.extend_from_slice(word_of_kind(kind))?;
    text.push(b'(')?;
    push_name(name, b"", text)?;
    text.extend_from_slice(b"){\n")?;
    Ok(())
}

/// Appends the statement of a node, around which `depth` groups stand.
#[cycle(writing)]
fn push_node(alloc: Global, node: &Node, depth: usize, text: &mut Vec<u8>) -> Result<(), NoMemory>
    requires { depth + depth_of (tree_of node.now) ≤ 16 }
    ensures { OnOk result (text.new.items ≡ text.old.items ++ statement_text depth (tree_of node.now)) }
{
    match node.view() {
        View::Leaf(name, dating) => push_leaf(alloc, name, dating, depth, text),
        View::Boundary(name) => push_boundary(name, depth, text),
        View::Group(kind, name, members) => {
            push_opening(kind, name, depth, text)?;
            push_members(alloc, members, depth + 1, text)?;
            push_closing(depth, text)
        }
    }
}

/// Appends the statements of members, around which `depth` groups stand.
#[cycle(writing)]
pub(crate) fn push_members(
    alloc: Global,
    members: &Members,
    depth: usize,
    text: &mut Vec<u8>,
) -> Result<(), NoMemory>
    requires { depth + depth_in (trees_of members.now) ≤ 16 }
    ensures { OnOk result (text.new.items ≡ text.old.items ++ statements_text depth (trees_of members.now)) }
{
    for node in members.nodes() {
        push_node(alloc, node, depth, text)?;
    }
    Ok(())
}
