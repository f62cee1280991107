//! Single lines, and what several of them share.
ghost use Rattle.std.specs.Prelude.{◌≡◌, ◌++◌, IfOk, OnOk, OnErr};
ghost use Rattle.cg_report.specs.Cause.{cause_in};
ghost use Rattle.cg_report.specs.Texts.{line, refused_line, grid_line, year_text, subject_text, work_line};

use crate::cause::SessionCause;
use crate::room::write_refusal;
use cg_model::{Grid, Name};
use cg_num::{NoMemory, Year, write_label};
use itoa::Buffer;
use std::alloc::Global;

// no refusal has more bytes
const REFUSAL: usize = 64;

/// Appends the line of a refusal, by the line of the script.
pub fn line_of(cause: &SessionCause, line: u32, out: &mut Vec<u8>) -> Result<(), NoMemory>
    ensures ok { OnOk result (out.new.items ≡ out.old.items ++ refused_line line (cause_in cause.now)) }
    ensures err { OnErr result (out.new.items ≡ out.old.items) }
{
    out.reserve(REFUSAL)?;
    write_refusal(cause, line, out);
    Ok(())
}

/// Appends the line of a grid: its older year and its younger, in cal BP.
pub fn grid_line(alloc: Global, grid: &Grid, out: &mut Vec<u8>) -> Result<(), NoMemory>
    ensures ok { OnOk result (out.new.items ≡ out.old.items ++ grid_line grid.now) }
    ensures err { OnErr result (out.new.items ≡ out.old.items) }
{
    let text = grid_text(alloc, grid)?;
    out.extend_from_slice(&text)?;
    Ok(())
}

fn grid_text(alloc: Global, grid: &Grid) -> Result<Vec<u8>, NoMemory>
    ensures { IfOk result (λ text. text.items ≡ grid_line grid.now) }
{
    let last = grid.cells() - 1;
    let mut digits = Buffer::new();
    let mut text = Vec::new(alloc);
    text.extend_from_slice(b"grid ")?;
    text.extend_from_slice(digits.format(grid.year(0).bp()).as_bytes())?;
    text.extend_from_slice(b" ")?;
    text.extend_from_slice(digits.format(grid.year(last).bp()).as_bytes())?;
    text.extend_from_slice(b"\n")?;
    Ok(text)
}

/// Appends the line of a session's counts.
pub fn work_line(out: &mut Vec<u8>) -> Result<(), NoMemory>
    ensures ok { OnOk result (out.new.items ≡ out.old.items ++ work_line) }
    ensures err { OnErr result (out.new.items ≡ out.old.items) }
{
    out.extend_from_slice(b"work claims 0 hits 0 mine 0 busy 0 noroom 0 published 0\n")?;
    Ok(())
}

/// Appends a year in cal BP, and its label.
pub(crate) fn push_year(alloc: Global, year: Year, text: &mut Vec<u8>) -> Result<(), NoMemory>
    ensures { OnOk result (text.new.items ≡ text.old.items ++ year_text year) }
{
    let mut digits = Buffer::new();
    text.extend_from_slice(digits.format(year.bp()).as_bytes())?;
    text.extend_from_slice(b" ")?;
    write_label(alloc, &year, text)
}

/// The line of a label, an event in quotes and the version of its model.
pub(crate) fn subject_line(
    alloc: Global,
    label: &[u8],
    event: &Name,
    version: u32,
) -> Result<Vec<u8>, NoMemory>
    ensures { IfOk result (λ text. text.items ≡ line (label.now ++ subject_text event.now version)) }
{
    let mut digits = Buffer::new();
    let mut text = Vec::new(alloc);
    text.extend_from_slice(label)?;
    text.extend_from_slice(b"\"")?;
    text.extend_from_slice(event.text().as_bytes())?;
    text.extend_from_slice(b"\" v")?;
    text.extend_from_slice(digits.format(version).as_bytes())?;
    text.extend_from_slice(b"\n")?;
    Ok(text)
}
