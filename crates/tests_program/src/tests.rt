mod dated;
mod files;
mod fingerprints;
mod outside;
mod printed;
mod refusals;
mod sharing;
mod status;
mod written;

use cg_io::{MemShelf, MemSink};
use cg_report::{Status, status_line};
use cg_run::{Ended, run_alone};
use std::alloc::Global;
use std::test::Fail;

/// Two events in order, which most of the cases run.
const TWO_EVENTS: &str = "Sequence(\"s\"){Date(\"A\");Date(\"B\");};";

/// The usual words: one model `m`, and one session script `s`.
const WORDS: [&str; 5] = ["alone", "--models", "main=m", "--sessions", "s"];

/// How a run ended: the line that tells of its status, what the sink took, and the seats of the journal.
#[derive(Drop)]
struct Outcome {
    told: String,
    output: Vec<u8>,
    seats: Vec<u32>,
}

fn words_of(rt: &HostRuntime, texts: &[&str]) -> Result<Vec<String>, Fail> {
    let mut words = Vec::new(rt.alloc());
    for text in texts {
        words.push(String::from_str(rt.alloc(), text)?)?;
    }
    Ok(words)
}

/// A shelf with these files by their names.
fn shelf_of(rt: &HostRuntime, files: &[(&str, &str)]) -> Result<MemShelf, Fail> {
    let mut shelf = MemShelf::new(rt.alloc());
    for (name, text) in files {
        shelf.put(name, text.as_bytes())?;
    }
    Ok(shelf)
}

/// A sink with all its room.
fn open_sink(rt: &HostRuntime) -> Result<MemSink, Fail> {
    let mut sink = MemSink::new(rt.alloc());
    sink.reserve()?;
    Ok(sink)
}

/// Words over a shelf.
fn run_over(
    rt: &HostRuntime,
    texts: &[&str],
    shelf: &mut MemShelf,
    sink: &mut MemSink,
) -> Result<Ended, Fail> {
    let words = words_of(rt, texts)?;
    Ok(run_alone(rt.alloc(), &words, shelf, sink))
}

/// Words over files.
fn run_words(
    rt: &HostRuntime,
    texts: &[&str],
    files: &[(&str, &str)],
    sink: &mut MemSink,
) -> Result<Ended, Fail> {
    let mut shelf = shelf_of(rt, files)?;
    run_over(rt, texts, &mut shelf, sink)
}

/// The line that tells of a status.
fn line_of(alloc: Global, status: &Status) -> Result<String, Fail> {
    let mut line = Vec::new(alloc);
    status_line(alloc, status, &mut line)?;
    Ok(String::from_utf8(line)?)
}

fn seats_of(alloc: Global, ended: &Ended) -> Result<Vec<u32>, Fail> {
    let mut seats = Vec::new(alloc);
    for entry in ended.journal.entries() {
        seats.push(entry.seat)?;
    }
    Ok(seats)
}

/// What came of words over files, with a sink that has all its room.
fn outcome_of(rt: &HostRuntime, texts: &[&str], files: &[(&str, &str)]) -> Result<Outcome, Fail> {
    let mut sink = open_sink(rt)?;
    let ended = run_words(rt, texts, files, &mut sink)?;
    Ok(Outcome {
        told: line_of(rt.alloc(), &ended.status)?,
        output: Vec::from_slice(rt.alloc(), sink.bytes())?,
        seats: seats_of(rt.alloc(), &ended)?,
    })
}
