//! What `main` makes of the words and of a status.

ghost use Rattle.std.specs.Prelude.{◌≡◌, drop};
ghost use Rattle.std.specs.Process.{exit_status};
ghost use Rattle.cg_report.specs.Status.{code_of};
ghost use Rattle.chron.specs.Report.{IsReported};

use cg_io::{Sink, Written, write_whole};
use cg_report::{Status, status_line};
use std::alloc::Global;
use std::process::ExitCode;

/// The words behind the program's name, which is the first one.
pub fn behind_the_name(mut words: Vec<String>) -> Vec<String>
    ensures { result.items ≡ drop 1 words.items }
{
    if !words.is_empty() {
        words.remove(0);
    }
    words
}

/// The exit code that tells of a status.
pub fn exit_of(status: &Status) -> ExitCode
    ensures { exit_status result ≡ code_of status.now }
{
    ExitCode::from(status.code())
}

/// Writes the line that tells of a status. A run that is done has none, and without memory for a line it tells of that.
pub fn report<K: Sink>(alloc: Global, out: &mut K, status: &Status) -> Written
    ensures { IsReported status.now (K.taken out.old) (K.taken out.new) result.taken result.failed }
{
    let mut line = Vec::new(alloc);
    match status_line(alloc, status, &mut line) {
        Ok(()) => write_whole(out, &line),
        Err(_) => write_whole(out, b"out of memory\n"),
    }
}
