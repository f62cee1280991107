//! The lines of a marginal.
ghost use Rattle.std.specs.Prelude.{◌≡◌, ◌++◌, IfOk, IfSome, IsSome, OnOk, OnErr, length};
ghost use Rattle.std.specs.Option.{ForSome};
ghost use Rattle.cg_marginal.specs.Marginal.{pairs_of, cell_count};
ghost use Rattle.cg_report.specs.Texts.{pair_line, pair_lines, marginal_lines};

use crate::line::{push_year, subject_line};
use cg_marginal::{Marginal, Pairs};
use cg_model::{Grid, Name};
use cg_num::{NoMemory, Year};
use itoa::Buffer;
use std::alloc::Global;

/// Appends a line for each cell, the oldest first: its year and the bounds of its pair, in parts per million.
///
/// It is not for `Impossible`, which has no pairs.
pub fn pairs(
    alloc: Global,
    marginal: &Marginal,
    grid: &Grid,
    out: &mut Vec<u8>,
) -> Result<(), NoMemory>
    requires possible { IsSome (pairs_of marginal.now) }
    requires cells { cell_count marginal.now ≡ grid.now.cells }
    ensures ok { OnOk result
        (IfSome (pairs_of marginal.now) (λ pairs. out.new.items ≡ out.old.items ++ pair_lines grid.now 0 pairs)) }
    ensures err { OnErr result (out.new.items ≡ out.old.items) }
{
    match marginal {
        Marginal::Impossible => unreachable!(),
        Marginal::Pairs(pairs) => {
            let mut text = Vec::new(alloc);
            push_pairs(alloc, grid, pairs, &mut text)?;
            out.extend_from_slice(&text)?;
            Ok(())
        }
    }
}

fn push_pairs(alloc: Global, grid: &Grid, pairs: &Pairs, text: &mut Vec<u8>) -> Result<(), NoMemory>
    requires { length pairs.now ≡ grid.now.cells }
    ensures { OnOk result (text.new.items ≡ text.old.items ++ pair_lines grid.now 0 pairs.now) }
{
    for cell in 0..pairs.len() {
        push_pair(alloc, grid.year(cell), pairs.pair(cell), text)?;
    }
    Ok(())
}

fn push_pair(
    alloc: Global,
    year: Year,
    pair: (u32, u32),
    text: &mut Vec<u8>,
) -> Result<(), NoMemory>
    ensures { OnOk result (text.new.items ≡ text.old.items ++ pair_line year pair) }
{
    let mut digits = Buffer::new();
    push_year(alloc, year, text)?;
    text.extend_from_slice(b" ")?;
    text.extend_from_slice(digits.format(pair.0).as_bytes())?;
    text.extend_from_slice(b" ")?;
    text.extend_from_slice(digits.format(pair.1).as_bytes())?;
    text.extend_from_slice(b"\n")?;
    Ok(())
}

/// Appends the lines of a marginal of an event, of the model in this version: its pairs, or that it is impossible.
pub fn marginal_lines(
    alloc: Global,
    grid: &Grid,
    event: &Name,
    version: u32,
    marginal: &Marginal,
    out: &mut Vec<u8>,
) -> Result<(), NoMemory>
    requires { ForSome (pairs_of marginal.now) (λ pairs. length pairs ≡ grid.now.cells) }
    ensures ok { OnOk result (out.new.items
        ≡ out.old.items ++ marginal_lines grid.now event.now version (pairs_of marginal.now)) }
    ensures err { OnErr result (out.new.items ≡ out.old.items) }
{
    let text = marginal_text(alloc, grid, event, version, marginal)?;
    out.extend_from_slice(&text)?;
    Ok(())
}

fn marginal_text(
    alloc: Global,
    grid: &Grid,
    event: &Name,
    version: u32,
    marginal: &Marginal,
) -> Result<Vec<u8>, NoMemory>
    requires { ForSome (pairs_of marginal.now) (λ pairs. length pairs ≡ grid.now.cells) }
    ensures { IfOk result (λ text. text.items ≡ marginal_lines grid.now event.now version (pairs_of marginal.now)) }
{
    match marginal {
        Marginal::Impossible => subject_line(alloc, b"impossible ", event, version),
        Marginal::Pairs(pairs) => {
            let mut text = subject_line(alloc, b"marginal ", event, version)?;
            push_pairs(alloc, grid, pairs, &mut text)?;
            Ok(text)
        }
    }
}
