//! `chron` reads radiocarbon chronologies and prints each event's posterior per calendar year, as intervals in parts
//! per million that are proved to hold.
#![tactic(auto)]

mod edge;
#[cfg(test)]
mod tests;

use crate::edge::{behind_the_name, exit_of, report};
use cg_io::{FileShelf, StreamSink};
use cg_report::Status;
use cg_run::run_alone;
use std::env;
use std::io::{self, ErrorKind};
use std::process::ExitCode;

fn main(rt: HostRuntime) -> ExitCode {
    let status = run(&rt);
    let mut errors = StreamSink::new(rt.stderr());
    // A failed write there has nobody to be told.
    report(rt.alloc(), &mut errors, &status);
    exit_of(&status)
}

/// Runs the words of the command line over real files and standard output.
fn run(rt: &HostRuntime) -> Status {
    let words = match arguments(rt) {
        Ok(words) => behind_the_name(words),
        Err(status) => return status,
    };
    let mut shelf = FileShelf::new(rt);
    let mut sink = StreamSink::new(rt.stdout());
    run_alone(rt.alloc(), &words, &mut shelf, &mut sink).status
}

/// All words, with the program's name. Words that are no text are in no known form.
fn arguments(rt: &HostRuntime) -> Result<Vec<String>, Status> {
    let given = match env::args(rt) {
        Ok(given) => given,
        Err(error) if error.kind() == ErrorKind::OutOfMemory => return Err(Status::NoMemory),
        Err(_) => return Err(Status::Usage),
    };
    let mut words = Vec::new(rt.alloc());
    for word in given {
        if words.push(word).is_err() {
            return Err(Status::NoMemory);
        }
    }
    Ok(words)
}
