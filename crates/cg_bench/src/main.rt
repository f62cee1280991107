//! Makes a call on a triangular table of enclosures, or its context, and prints a check sum: what `docs/PERFORMANCE.md`
//! measures.
//!
//! The first argument is `then`, `back` or `into_sequence`, the second the number of cells, 0 to 512.
#![tactic(auto)]

ghost use Rattle.std.specs.Prelude.{◌≤◌, IfOk, IfSome};

mod call;
mod fold;

use crate::call::{Call, call_of, word_of};
use crate::fold::{MOST, check_sum};
use std::process::ExitCode;
use std::{env, io};

/// What the command line asks for.
struct Request {
    call: Call,
    cells: usize,
}

fn main(rt: HostRuntime) -> io::Result<ExitCode> {
    let Some(Request { call, cells }) = request_of(&rt)? else {
        eprintln!(rt;
            "usage: cg_bench CALL CELLS, CALL being then, back or into_sequence, at most 512 cells"
        )?;
        return Ok(ExitCode::from(2));
    };
    match check_sum(rt.alloc(), call, cells) {
        Ok(sum) => println!(rt; "{} cells {cells} check sum {sum}", word_of(call))?,
        Err(_) => return Ok(ExitCode::from(6)),
    }
    Ok(ExitCode::SUCCESS)
}

/// The call and the number of cells that the command line asks for, where it asks for these.
fn request_of(rt: &HostRuntime) -> io::Result<Option<Request>>
    ensures { IfOk result (λ request. IfSome request (λ r. r.cells ≤ 512)) }
{
    let mut words = env::args(rt)?;
    let _program = words.next();
    let (Some(name), Some(count)) = (words.next(), words.next()) else {
        return Ok(None);
    };
    match (call_of(&name), count.parse::<usize>()) {
        (Some(call), Ok(cells)) if cells <= MOST => Ok(Some(Request { call, cells })),
        _ => Ok(None),
    }
}
