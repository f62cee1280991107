ghost use Rattle.std.specs.Prelude.{◌≡◌, ◌++◌, ◌∷◌, [], codes, IfOk, OnOk, OnErr};
ghost use Rattle.cg_report.specs.Status.{file_kind_text, file_text, refusal_text, status_text, code_of};

use crate::fault::push_file_cause;
use crate::file::{FileCause, FileKind, FileRef};
use cg_num::NoMemory;
use itoa::Buffer;
use std::alloc::Global;

/// How a run ended.
#[derive(Drop)]
pub enum Status {
    /// Each session did all of its script, and the whole output was taken.
    Done,
    /// The words ask for nothing. No file was read.
    Usage,
    /// The read of this file failed.
    ReadFault(FileRef),
    /// This file is refused at a line, 0 for the file as a whole.
    Refused(FileRef, u32, FileCause),
    /// A write failed before the whole output was taken.
    WriteFault,
    /// Want of memory.
    NoMemory,
}

impl Status {
    /// The exit code of the program: 0 for `Done`, else 2 to 6 in the order of the variants.
    pub fn code(&self) -> u8
        ensures { result ≡ code_of self.now }
    {
        match self {
            Status::Done => 0,
            Status::Usage => 2,
            Status::ReadFault(_) => 3,
            Status::Refused(_, _, _) => 4,
            Status::WriteFault => 5,
            Status::NoMemory => 6,
        }
    }
}

/// Appends the line that tells of a status: nothing for `Done`.
pub fn status_line(alloc: Global, status: &Status, out: &mut Vec<u8>) -> Result<(), NoMemory>
    ensures ok { OnOk result (out.new.items ≡ out.old.items ++ status_text status.now) }
    ensures err { OnErr result (out.new.items ≡ out.old.items) }
{
    let text = status_text(alloc, status)?;
    out.extend_from_slice(&text)?;
    Ok(())
}

fn status_text(alloc: Global, status: &Status) -> Result<Vec<u8>, NoMemory>
    ensures { IfOk result (λ text. text.items ≡ status_text status.now) }
{
    match status {
        Status::Done => Ok(Vec::new(alloc)),
        Status::Usage => Ok(Vec::from_slice(alloc, b"usage\n")?),
        Status::ReadFault(file) => fault_line(alloc, file),
        Status::Refused(file, line, cause) => refusal_line(alloc, file, *line, cause),
        Status::WriteFault => Ok(Vec::from_slice(alloc, b"write fault\n")?),
        Status::NoMemory => Ok(Vec::from_slice(alloc, b"out of memory\n")?),
    }
}

fn fault_line(alloc: Global, file: &FileRef) -> Result<Vec<u8>, NoMemory>
    ensures { IfOk result (λ text. text.items ≡ (codes "read fault: " ++ file_text file.now) ++ (10 ∷ [])) }
{
    let mut text = Vec::new(alloc);
    text.extend_from_slice(b"read fault: ")?;
    push_file(file, &mut text)?;
    text.extend_from_slice(b"\n")?;
    Ok(text)
}

fn refusal_line(
    alloc: Global,
    file: &FileRef,
    line: u32,
    cause: &FileCause,
) -> Result<Vec<u8>, NoMemory>
    ensures { IfOk result (λ text. text.items ≡ refusal_text file.now line cause.now ++ (10 ∷ [])) }
{
    let mut digits = Buffer::new();
    let mut text = Vec::new(alloc);
    push_file(file, &mut text)?;
    text.extend_from_slice(b" line ")?;
    text.extend_from_slice(digits.format(line).as_bytes())?;
    text.extend_from_slice(b": ")?;
    push_file_cause(cause, &mut text)?;
    text.extend_from_slice(b"\n")?;
    Ok(text)
}

fn push_file(file: &FileRef, text: &mut Vec<u8>) -> Result<(), NoMemory>
    ensures { OnOk result (text.new.items ≡ text.old.items ++ file_text file.now) }
{
    let mut digits = Buffer::new();
    text.extend_from_slice(file_kind_text(file.kind))?;
    text.extend_from_slice(digits.format(file.number).as_bytes())?;
    Ok(())
}

fn file_kind_text(kind: FileKind) -> &'static [u8]
    ensures { result.now ≡ file_kind_text kind }
{
    match kind {
        FileKind::Curve => b"curve ",
        FileKind::Model => b"model ",
        FileKind::Session => b"session ",
    }
}
