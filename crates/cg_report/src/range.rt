//! The lines of the years that cover most of a marginal.
ghost use Rattle.std.specs.Prelude.{◌≡◌, ◌≤◌, ◌++◌, All, IfOk, IfSome, IsSome, OnOk, OnErr, codes, decimal, length};
ghost use Rattle.std.specs.List.{flat_map};
ghost use Rattle.std.specs.Option.{ForSome};
ghost use Rattle.cg_marginal.specs.Marginal.{pairs_of, cell_count};
ghost use Rattle.cg_ranges.specs.Ranges.{ranges_of};
ghost use Rattle.cg_ranges.specs.Runs.{IsRunOf};
ghost use Rattle.cg_report.specs.Texts.{line, per_cent, run_line, target_lines, range_lines, ranges_lines};

use crate::line::{push_year, subject_line};
use cg_marginal::Marginal;
use cg_model::{Grid, Name};
use cg_num::NoMemory;
use cg_ranges::{Ranges, ranges};
use itoa::Buffer;
use std::alloc::Global;

/// Appends the ranges of 68.3, 95.4 and 99.7 per cent: for each a line with what the lower ends sum to, in parts per
/// million, and a line for each run of years, the oldest first.
///
/// It is not for `Impossible`, which has no pairs.
pub fn range_lines(
    alloc: Global,
    marginal: &Marginal,
    grid: &Grid,
    out: &mut Vec<u8>,
) -> Result<(), NoMemory>
    requires possible { IsSome (pairs_of marginal.now) }
    requires cells { cell_count marginal.now ≡ grid.now.cells }
    ensures ok { OnOk result
        (IfSome (pairs_of marginal.now) (λ pairs. out.new.items ≡ out.old.items ++ range_lines grid.now pairs)) }
    ensures err { OnErr result (out.new.items ≡ out.old.items) }
{
    let mut text = Vec::new(alloc);
    push_ranges(alloc, marginal, grid, &mut text)?;
    out.extend_from_slice(&text)?;
    Ok(())
}

fn push_ranges(
    alloc: Global,
    marginal: &Marginal,
    grid: &Grid,
    text: &mut Vec<u8>,
) -> Result<(), NoMemory>
    requires possible { IsSome (pairs_of marginal.now) }
    requires cells { cell_count marginal.now ≡ grid.now.cells }
    ensures { OnOk result
        (IfSome (pairs_of marginal.now) (λ pairs. text.new.items ≡ text.old.items ++ range_lines grid.now pairs)) }
{
    push_target(alloc, 683_000, marginal, grid, text)?;
    push_target(alloc, 954_000, marginal, grid, text)?;
    push_target(alloc, 997_000, marginal, grid, text)
}

fn push_target(
    alloc: Global,
    target: u32,
    marginal: &Marginal,
    grid: &Grid,
    text: &mut Vec<u8>,
) -> Result<(), NoMemory>
    requires possible { IsSome (pairs_of marginal.now) }
    requires cells { cell_count marginal.now ≡ grid.now.cells }
    requires target { target ≤ 998464 }
    ensures { OnOk result (IfSome (pairs_of marginal.now) (λ pairs. text.new.items
        ≡ text.old.items ++ target_lines grid.now target (ranges_of pairs target))) }
{
    prove!(grid.cells() <= 512);
    let ranges = ranges(alloc, marginal, target)?;
    push_sum(target, ranges.sum(), text)?;
    push_runs(alloc, grid, &ranges, text)
}

fn push_sum(target: u32, sum: u32, text: &mut Vec<u8>) -> Result<(), NoMemory>
    ensures { OnOk result (text.new.items ≡ text.old.items ++ line (per_cent target ++ codes " " ++ decimal sum)) }
{
    let mut digits = Buffer::new();
    text.extend_from_slice(digits.format(target / 10_000).as_bytes())?;
    text.extend_from_slice(b".")?;
    text.extend_from_slice(digits.format(target / 1_000 % 10).as_bytes())?;
    text.extend_from_slice(b" ")?;
    text.extend_from_slice(digits.format(sum).as_bytes())?;
    text.extend_from_slice(b"\n")?;
    Ok(())
}

fn push_runs(
    alloc: Global,
    grid: &Grid,
    ranges: &Ranges,
    text: &mut Vec<u8>,
) -> Result<(), NoMemory>
    requires { All (IsRunOf grid.now.cells) ranges.now.runs }
    ensures { OnOk result (text.new.items ≡ text.old.items ++ flat_map (run_line grid.now) ranges.now.runs) }
{
    for number in 0..ranges.count() {
        push_run(alloc, grid, ranges.run(number), text)?;
    }
    Ok(())
}

fn push_run(
    alloc: Global,
    grid: &Grid,
    run: (usize, usize),
    text: &mut Vec<u8>,
) -> Result<(), NoMemory>
    requires { IsRunOf grid.now.cells run }
    ensures { OnOk result (text.new.items ≡ text.old.items ++ run_line grid.now run) }
{
    push_year(alloc, grid.year(run.0), text)?;
    text.extend_from_slice(b" to ")?;
    push_year(alloc, grid.year(run.1), text)?;
    text.extend_from_slice(b"\n")?;
    Ok(())
}

/// Appends the lines of the ranges of an event, of the model in this version, or that it is impossible.
pub fn ranges_lines(
    alloc: Global,
    grid: &Grid,
    event: &Name,
    version: u32,
    marginal: &Marginal,
    out: &mut Vec<u8>,
) -> Result<(), NoMemory>
    requires { ForSome (pairs_of marginal.now) (λ pairs. length pairs ≡ grid.now.cells) }
    ensures ok { OnOk result (out.new.items
        ≡ out.old.items ++ ranges_lines grid.now event.now version (pairs_of marginal.now)) }
    ensures err { OnErr result (out.new.items ≡ out.old.items) }
{
    let text = ranges_text(alloc, grid, event, version, marginal)?;
    out.extend_from_slice(&text)?;
    Ok(())
}

fn ranges_text(
    alloc: Global,
    grid: &Grid,
    event: &Name,
    version: u32,
    marginal: &Marginal,
) -> Result<Vec<u8>, NoMemory>
    requires { ForSome (pairs_of marginal.now) (λ pairs. length pairs ≡ grid.now.cells) }
    ensures { IfOk result (λ text. text.items ≡ ranges_lines grid.now event.now version (pairs_of marginal.now)) }
{
    match marginal {
        Marginal::Impossible => subject_line(alloc, b"impossible ", event, version),
        Marginal::Pairs(_) => {
            let mut text = subject_line(alloc, b"ranges ", event, version)?;
            push_ranges(alloc, marginal, grid, &mut text)?;
            Ok(text)
        }
    }
}
