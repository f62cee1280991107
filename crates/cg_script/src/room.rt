//! What is told of a line before its command is read: an unknown word, or a limit.
ghost use Rattle.std.specs.Prelude.{◌≡◌, ◌≤◌, length, map};
ghost use Rattle.cg_script.specs.Command.{command_in, line_in};
ghost use Rattle.cg_script.specs.Words.{cut_word};
ghost use Rattle.cg_script.specs.Script.{is_print, prints_in};
ghost use Rattle.cg_script.specs.View.{ChecksWord, ChecksRoom};

use crate::command::Command;
use crate::fault::{ScriptCause, ScriptLimit};
use crate::word::{Word, prints};
use cg_text::name_of;
use std::alloc::Global;

const MAX_COMMANDS: usize = 1_000;

const MAX_PRINTS: usize = 200;

const MAX_BYTES: usize = 120;

fn is_print(command: &Command) -> bool
    ensures { result ≡ is_print (command_in command.now) }
{
    matches!(command, Command::Print(_) | Command::Ranges(_))
}

fn prints_in(lines: &[(u32, Command)]) -> usize
    ensures { result ≡ prints_in (map line_in lines.now) }
{
    let mut prints = 0;
    for line in lines {
        if is_print(&line.1) {
            prints += 1;
        }
    }
    prints
}

/// The text, cut to its first 120 bytes at the end of a character.
fn cut_word(word: &str) -> &str
    ensures value { result.now ≡ cut_word word.now }
    ensures short { length result.now ≤ 120 }
{
    if word.len() <= MAX_BYTES {
        return word;
    }
    let (front, _) = word.split_at(word.floor_char_boundary(MAX_BYTES));
    front
}

/// Refuses a text that is the word of no command.
pub(crate) fn check_word(
    alloc: Global,
    command: Option<Word>,
    word: &[u8],
) -> Result<(), ScriptCause>
    ensures { ChecksWord command word.now result }
{
    if command.is_some() {
        return Ok(());
    }
    match str::from_utf8(word) {
        Ok(text) => Err(ScriptCause::Unknown(name_of(alloc, cut_word(text))?)),
        Err(_) => Ok(()),
    }
}

/// Refuses a command behind 1,000 lines, and one that prints behind 200 prints.
pub(crate) fn check_room(lines: &[(u32, Command)], command: Option<Word>) -> Result<(), ScriptCause>
    ensures { ChecksRoom (map line_in lines.now) command result }
{
    if lines.len() >= MAX_COMMANDS {
        return Err(ScriptCause::Limit(ScriptLimit::Commands));
    }
    if prints(command) && prints_in(lines) >= MAX_PRINTS {
        return Err(ScriptCause::Limit(ScriptLimit::Prints));
    }
    Ok(())
}
