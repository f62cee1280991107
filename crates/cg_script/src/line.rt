//! The command of one line.
ghost use Rattle.std.specs.Prelude.{◌≡◌, ◌<◌, ◌-◌, ◌^◌, length, map, true, false, IfOk, IfErr};
ghost use Rattle.cg_model.specs.Node.{tree_of};
ghost use Rattle.cg_script.specs.Command.{line_in};
ghost use Rattle.cg_script.specs.Words.{fields, has_none, sole_name, name_and_statement};
ghost use Rattle.cg_script.specs.Written.{sole_model, sole_version, shown};
ghost use Rattle.cg_script.specs.View.{Gives, GivesNode, GivesPair, IsDatingOf, Answers, AnswersAt};

use crate::command::Command;
use crate::fault::{ScriptCause, ScriptLimit};
use crate::field::{behind_blanks, both_fields, has_none, next_word, only_field};
use crate::number::{is_whole, model_name, version_of, year_of};
use crate::quoted::{name_and_statement, sole_name, two_names};
use crate::room::{check_room, check_word};
use crate::word::{Word, word_of};
use cg_cql::read_statement;
use cg_edit::Edit;
use cg_grammar::CqlCause;
use cg_model::{Dating, Name, Node, View};
use cg_text::name_of;
use std::alloc::Global;

/// This command, where nothing but blanks stands behind its word.
fn alone(command: Command, rest: &[u8]) -> Result<Command, ScriptCause>
    ensures ok { IfOk result (λ said. (said ≡ command) × (has_none (fields rest.now) ≡ true)) }
    ensures err { IfErr result (λ cause. (cause ≡ ScriptCause.Syntax) × (has_none (fields rest.now) ≡ false)) }
{
    if !has_none(rest) {
        return Err(ScriptCause::Syntax);
    }
    Ok(command)
}

/// The grid of two years.
fn grid_in(rest: &[u8]) -> Result<Command, ScriptCause>
    ensures { Answers (shown Word.Grid rest.now) result }
{
    let Some((older, younger)) = both_fields(rest) else {
        return Err(ScriptCause::Syntax);
    };
    if !is_whole(older) || !is_whole(younger) {
        return Err(ScriptCause::Syntax);
    }
    match (year_of(older), year_of(younger)) {
        (Some(older), Some(younger)) => Ok(Command::Grid(older, younger)),
        _ => Err(ScriptCause::Limit(ScriptLimit::Years)),
    }
}

/// The name of a model that is the only field.
fn model_in(alloc: Global, rest: &[u8]) -> Result<Name, ScriptCause>
    ensures { Gives (sole_model rest.now) result }
{
    let Some(field) = only_field(rest) else {
        return Err(ScriptCause::Syntax);
    };
    let Some(name) = model_name(field) else {
        return Err(ScriptCause::Syntax);
    };
    Ok(name_of(alloc, name)?)
}

/// The number of a version that is the only field.
fn version_in(rest: &[u8]) -> Result<u32, ScriptCause>
    ensures { Gives (sole_version rest.now) result }
{
    let Some(field) = only_field(rest) else {
        return Err(ScriptCause::Syntax);
    };
    match version_of(field) {
        Some(version) => Ok(version),
        None => Err(ScriptCause::Syntax),
    }
}

/// The name of a node in quotes, with nothing behind it.
fn node_in(alloc: Global, rest: &[u8]) -> Result<Name, ScriptCause>
    requires { length rest.now < 2 ^ 32 - 1 }
    ensures { Gives (sole_name rest.now) result }
{
    let Some(name) = sole_name(rest) else {
        return Err(ScriptCause::Syntax);
    };
    Ok(name_of(alloc, name)?)
}

/// The change of a node's name to another.
fn rename_in(alloc: Global, rest: &[u8]) -> Result<Command, ScriptCause>
    requires { length rest.now < 2 ^ 32 - 1 }
    ensures { Answers (shown Word.Rename rest.now) result }
{
    let Some((name, new)) = two_names(rest) else {
        return Err(ScriptCause::Syntax);
    };
    let name = name_of(alloc, name)?;
    let new = name_of(alloc, new)?;
    Ok(Command::Change(Edit::Rename(name, new)))
}

/// The node that a statement spells, or why it can't be read.
fn node_of(alloc: Global, statement: &[u8]) -> Result<Node, ScriptCause>
    requires { length statement.now < 2 ^ 32 - 1 }
    ensures { GivesNode statement.now result }
{
    match read_statement(alloc, statement) {
        Ok(node) => Ok(node),
        Err(fault) => match fault.cause {
            CqlCause::NoMemory => Err(ScriptCause::NoMemory),
            cause => Err(ScriptCause::Statement(cause)),
        },
    }
}

/// The name of a node in quotes, and the node that the statement behind it spells.
fn pair_in(alloc: Global, rest: &[u8]) -> Result<(Name, Node), ScriptCause>
    requires { length rest.now < 2 ^ 32 - 1 }
    ensures { GivesPair (name_and_statement rest.now) result }
{
    let Some((name, statement)) = name_and_statement(rest) else {
        return Err(ScriptCause::Syntax);
    };
    let node = node_of(alloc, statement)?;
    Ok((name_of(alloc, name)?, node))
}

/// The dating of a nameless date.
fn dating_of(node: &Node) -> Option<Dating>
    ensures { IsDatingOf (tree_of node.now) result }
{
    match node.view() {
        View::Leaf(name, dating) if name.text().is_empty() => Some(*dating),
        _ => None,
    }
}

/// The change of an event's dating.
fn set_in(alloc: Global, rest: &[u8]) -> Result<Command, ScriptCause>
    requires { length rest.now < 2 ^ 32 - 1 }
    ensures { Answers (shown Word.Set rest.now) result }
{
    let (event, node) = pair_in(alloc, rest)?;
    match dating_of(&node) {
        Some(dating) => Ok(Command::Change(Edit::Set(event, dating))),
        None => Err(ScriptCause::Syntax),
    }
}

/// The change that adds a node to a group.
fn add_in(alloc: Global, rest: &[u8]) -> Result<Command, ScriptCause>
    requires { length rest.now < 2 ^ 32 - 1 }
    ensures { Answers (shown Word.Add rest.now) result }
{
    let (group, node) = pair_in(alloc, rest)?;
    Ok(Command::Change(Edit::Add(group, node)))
}

/// The change that puts a node before another.
fn insert_in(alloc: Global, rest: &[u8]) -> Result<Command, ScriptCause>
    requires { length rest.now < 2 ^ 32 - 1 }
    ensures { Answers (shown Word.Insert rest.now) result }
{
    let (name, node) = pair_in(alloc, rest)?;
    Ok(Command::Change(Edit::InsertBefore(name, node)))
}

/// The command of a word and of what stands behind the blanks that follow.
fn command_of(alloc: Global, word: Word, rest: &[u8]) -> Result<Command, ScriptCause>
    requires { length rest.now < 2 ^ 32 - 1 }
    ensures { Answers (shown word rest.now) result }
{
    match word {
        Word::Grid => grid_in(rest),
        Word::Open => Ok(Command::Open(model_in(alloc, rest)?)),
        Word::Take => Ok(Command::Take(version_in(rest)?)),
        Word::Undo => alone(Command::Undo, rest),
        Word::Set => set_in(alloc, rest),
        Word::Add => add_in(alloc, rest),
        Word::Insert => insert_in(alloc, rest),
        Word::Drop => Ok(Command::Change(Edit::Drop(node_in(alloc, rest)?))),
        Word::Rename => rename_in(alloc, rest),
        Word::Commit => Ok(Command::Commit(model_in(alloc, rest)?)),
        Word::Print => Ok(Command::Print(node_in(alloc, rest)?)),
        Word::Ranges => Ok(Command::Ranges(node_in(alloc, rest)?)),
        Word::Model => alone(Command::Model, rest),
        Word::Work => alone(Command::Work, rest),
    }
}

/// The command of a line behind these lines, or the first cause for which it says none.
pub(crate) fn command_at(
    alloc: Global,
    lines: &[(u32, Command)],
    line: &[u8],
) -> Result<Command, ScriptCause>
    requires { length line.now < 2 ^ 32 - 1 }
    ensures { AnswersAt (map line_in lines.now) line.now result }
{
    let (first, rest) = next_word(line);
    let word = word_of(first);
    check_word(alloc, word, first)?;
    check_room(lines, word)?;
    match word {
        Some(word) => command_of(alloc, word, behind_blanks(rest)),
        None => Err(ScriptCause::Syntax),
    }
}
