ghost use Rattle.std.specs.Prelude.{◌≡◌, ◌≤◌, ◌+◌, ◌++◌, length, decimal, vec_len, vec_capacity, IfOk, OnOk, OnErr};
ghost use Rattle.cg_report.specs.Cause.{cause_in};
ghost use Rattle.cg_report.specs.Texts.{line, session_line, refused_line};
ghost use Rattle.cg_report.specs.Transcript.{last_line};

use cg_num::NoMemory;
use cg_report::{SessionCause, write_last, write_number, write_refusal};
use std::alloc::Global;

// the bytes of the longest last line
const LAST: usize = 33;

// more than the bytes of any line of an answer or a refusal
const LINE: usize = 64;

/// What a session has written. There is always room for its last line.
#[derive(Drop)]
pub(crate) struct Transcript {
    pub bytes: Vec<u8>,
    ghost room: { vec_len bytes + 33 ≤ vec_capacity bytes },
}

impl Transcript {
    ghost use Rattle.cg_session.specs.Transcript.{HasRoom};

    /// The first line.
    pub fn begin(alloc: Global, session: u32) -> Result<Transcript, NoMemory>
        ensures { IfOk result (λ transcript. transcript.bytes.items ≡ session_line session) }
    {
        let mut transcript = Transcript {
            bytes: Vec::with_capacity(alloc, LINE + LAST)?,
        };
        transcript.tell(b"session ", session);
        Ok(transcript)
    }

    /// Makes room for one line more. All else stays.
    pub fn make_room(&mut self) -> Result<(), NoMemory>
        ensures same { self.new.bytes.items ≡ self.old.bytes.items }
        ensures ok { OnOk result (HasRoom self.new 64) }
    {
        self.bytes.reserve(LINE + LAST)?;
        Ok(())
    }

    /// A line of a label and a number.
    pub fn tell(&mut self, label: &[u8], number: u32)
        requires { HasRoom self.old (length label.now + 11) }
        ensures { self.new.bytes.items ≡ self.old.bytes.items ++ line (label.now ++ decimal number) }
    {
        write_number(label, number, &mut self.bytes);
    }

    /// The line of a refusal, by the line of the script.
    pub fn refuse(&mut self, number: u32, cause: &SessionCause)
        requires { HasRoom self.old 64 }
        ensures { self.new.bytes.items ≡ self.old.bytes.items ++ refused_line number (cause_in cause.now) }
    {
        write_refusal(cause, number, &mut self.bytes);
    }

    /// Lines that take what memory they need. Without it all stays.
    pub fn append(&mut self, lines: &[u8]) -> Result<(), NoMemory>
        ensures ok { OnOk result (self.new.bytes.items ≡ self.old.bytes.items ++ lines.now) }
        ensures err { OnErr result (self.new.bytes.items ≡ self.old.bytes.items) }
    {
        self.bytes
            .reserve(lines.len().checked_add(LAST).ok_or(NoMemory)?)?;
        self.bytes.extend_from_slice(lines)?;
        Ok(())
    }

    /// The whole, with its last line. Takes no memory.
    pub fn close(self, stopped: bool, session: u32) -> Vec<u8>
        ensures { result.items ≡ self.bytes.items ++ last_line stopped session }
    {
        let Transcript { mut bytes } = self;
        write_last(stopped, session, &mut bytes);
        bytes
    }
}
