ghost use Rattle.std.specs.Prelude.{◌≡◌, ◌++◌, ◌∷◌, [], OnOk, OnErr};

use cg_num::NoMemory;
use cg_turn::Logged;
use std::alloc::Global;

/// A line of a sheet: the number of the seat that wrote it, and how many that one had tried before.
#[derive(Clone, Copy, Debug, PartialEq, Eq)]
pub struct Line {
    pub seat: u32,
    pub before: u32,
}

/// A sheet with a heading, on which seats write.
#[derive(Drop)]
pub struct Sheet {
    pub heading: u64,
    pub lines: Vec<Line>,
}

impl Logged for Sheet {
    type Ground = u64;

    type Entry = Line;

    ghost ground_of = { λ sheet. sheet.heading };

    ghost entries = { λ sheet. sheet.lines.items };

    ghost seat_of = { λ line. line.seat };

    fn length(&self) -> u64 {
        self.lines.len() as u64
    }
}

impl Sheet {
    /// A sheet without a line.
    pub fn new(alloc: Global, heading: u64) -> Sheet
        ensures { result.lines.items ≡ [] }
    {
        Sheet {
            heading,
            lines: Vec::new(alloc),
        }
    }

    /// Writes a line below the others. Want of memory leaves the sheet as it was.
    pub fn write(&mut self, line: Line) -> Result<(), NoMemory>
        ensures heading { self.new.heading ≡ self.old.heading }
        ensures ok { OnOk result (self.new.lines.items ≡ self.old.lines.items ++ line ∷ []) }
        ensures err { OnErr result (self.new.lines.items ≡ self.old.lines.items) }
    {
        self.lines.push(line)?;
        Ok(())
    }
}
