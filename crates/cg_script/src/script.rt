ghost use Rattle.std.specs.Prelude.{◌≡◌, ◌<◌, ◌-◌, ◌^◌, length, map, slice_get, Some, IfOk, IfErr};
ghost use Rattle.cg_sharing.specs.Course.{IsFit};
ghost use Rattle.cg_script.specs.Command.{command_in, line_in};
ghost use Rattle.cg_script.specs.Script.{IsScript, FailsBy, IsBounded};
ghost use Rattle.cg_script.specs.View.{Takes};

use crate::command::Command;
use crate::fault::{ScriptCause, ScriptFault};
use crate::line::command_at;
use crate::lines::{first_line, is_skipped};
use std::alloc::Global;
use std::marker::Model;

/// The commands of a session, each with its line. At most 1,000, at most 200 of them prints.
#[derive(Drop)]
pub struct Script {
    lines: Vec<(u32, Command)>,
}

impl Model for Script {
    ghost use Rattle.std.specs.Prelude.{List, map};
    ghost use Rattle.std.specs.Coded.{coded_list};
    ghost use Rattle.cg_sharing.specs.Command.{Line};

    ghost Value = { List Line };

    ghost use Rattle.cg_script.specs.Stored.{coded_line};

    ghost coded = { coded_list coded_line };

    ghost use Rattle.cg_script.specs.Command.{line_in};
    ghost use Rattle.cg_script.specs.Script.{IsBounded};

    ghost view = { λ s. map line_in s.lines.items };

    ghost invariant = { λ s. IsBounded (map line_in s.lines.items) };
}

impl Script {
    /// How many commands there are.
    pub fn len(&self) -> usize
        ensures len { result ≡ length self.now }
        ensures bounded { IsBounded self.now }
    {
        self.lines.len()
    }

    /// A command, counted from 0, and its line, counted from 1.
    pub fn get(&self, place: usize) -> (u32, &Command)
        requires { place < length self.now }
        ensures line { slice_get self.now place ≡ Some (record {
          number = result.0;
          command = command_in result.1.now;
        }) }
        ensures fit { IsFit (command_in result.1.now) }
    {
        let line = &self.lines[place];
        (line.0, &line.1)
    }
}

fn fault_at(line: u32, cause: ScriptCause) -> ScriptFault
    ensures { result ≡ record {
      line = line;
      cause = cause;
    } }
{
    ScriptFault { line, cause }
}

/// Adds the command of a line behind the others.
fn take_line(
    alloc: Global,
    lines: &mut Vec<(u32, Command)>,
    number: u32,
    line: &[u8],
) -> Result<(), ScriptFault>
    requires { length line.now < 2 ^ 32 - 1 }
    ensures { Takes (map line_in lines.old.items) number line.now (map line_in lines.new.items) result }
{
    let command = match command_at(alloc, lines, line) {
        Ok(command) => command,
        Err(cause) => return Err(fault_at(number, cause)),
    };
    match lines.push((number, command)) {
        Ok(()) => Ok(()),
        Err(_) => Err(fault_at(number, ScriptCause::NoMemory)),
    }
}

/// The commands of a script, each with its line.
fn lines_of(alloc: Global, bytes: &[u8]) -> Result<Vec<(u32, Command)>, ScriptFault>
    requires { length bytes.now < 2 ^ 32 - 1 }
    ensures ok { IfOk result (λ lines. IsScript bytes.now (map line_in lines.items)) }
    ensures fault { IfErr result (λ fault. FailsBy bytes.now fault) }
{
    let mut lines = Vec::new(alloc);
    let mut rest = bytes;
    let mut number = 1u32;
    while !rest.is_empty() {
        let (line, behind) = first_line(rest);
        if !is_skipped(line) {
            take_line(alloc, &mut lines, number, line)?;
        }
        rest = behind;
        number += 1;
    }
    Ok(lines)
}

/// The script that bytes say, or their fault: the first line that says no command, and there the first cause that
/// holds. Bytes are one script or have one fault, so each comes exactly where it holds, want of memory aside.
///
/// A line ends at a line feed, and a carriage return before that is dropped. Empty and blank lines are skipped, and
/// those that begin with `#`. The others are commands: `grid OLDER YOUNGER`, `open NAME`, `take vN`, `undo`,
/// `set "EVENT" STATEMENT`, `add "GROUP" STATEMENT`, `insert "NODE" STATEMENT`, `drop "NODE"`, `rename "NODE" "NEW"`,
/// `commit NAME`, `print "EVENT"`, `ranges "EVENT"`, `model` and `work`. The years of a grid are cal BP. The statement
/// of `set` is a nameless `Date`, `C_Date` or `R_Date`, and that of `add` and `insert` any one statement of a model
/// file, a Boundary too. A new name may be empty.
pub fn read_script(alloc: Global, bytes: &[u8]) -> Result<Script, ScriptFault>
    requires { length bytes.now < 2 ^ 32 - 1 }
    ensures ok { IfOk result (λ script. IsScript bytes.now script) }
    ensures fault { IfErr result (λ fault. FailsBy bytes.now fault) }
    ensures bounded { IfOk result (λ script. IsBounded script) }
{
    Ok(Script {
        lines: lines_of(alloc, bytes)?,
    })
}
