ghost use Rattle.std.specs.Prelude.{◌≡◌, ◌≢◌, ◌<◌, ◌-◌, ◌^◌, ◌∷◌, length, reverse, nat_le, IfOk, IfErr, OnOk};
ghost use Rattle.cg_curve.specs.File.{IsCurveFile, HasFault, AreGood};
ghost use Rattle.cg_curve.specs.Lines.{data_lines};
ghost use Rattle.cg_curve.specs.Rows.{SayRows};
ghost use Rattle.cg_curve.specs.Reading.{in_range, in_order, is_near, with_row, with_line, GivesRows, do_rise, oldest_first};

use crate::curve::Curve;
use crate::fault::CurveFault;
use crate::lines::{first_line, is_skipped};
use crate::row::{Row, row_of};
use std::alloc::Global;

const MAX_ROWS: usize = 20_000;

fn in_range(row: &Row) -> bool
    ensures { result ≡ in_range row.now }
{
    row.age >= -10_000_000 && row.age <= 70_000_000 && row.sigma >= 0 && row.sigma <= 10_000_000
}

/// Whether the year goes on in the order of the rows.
fn in_order(rows: &[Row], year: i64) -> bool
    ensures { result ≡ in_order (reverse rows.now) year }
{
    match rows {
        [] => true,
        [last] => year != last.year,
        [.., before, last] => {
            if last.year < before.year {
                year < last.year
            } else {
                last.year < year
            }
        }
    }
}

fn is_near(rows: &[Row], year: i64) -> bool
    ensures { result ≡ is_near (reverse rows.now) year }
{
    match rows {
        [] => true,
        [.., last] => last.year.abs_diff(year) <= 1000,
    }
}

fn is_full(rows: &[Row]) -> bool
    ensures { result ≡ nat_le 20000 (length (reverse rows.now)) }
{
    rows.len() >= MAX_ROWS
}

fn push_row(rows: &mut Vec<Row>, row: Row) -> Result<(), CurveFault>
    ensures ok { OnOk result (reverse rows.new.items ≡ row ∷ reverse rows.old.items) }
    ensures err { IfErr result (λ e. e ≡ CurveFault.NoMemory) }
{
    rows.push(row)?;
    Ok(())
}

/// Adds the row of a line behind the others.
fn take_row(rows: &mut Vec<Row>, line: u32, row: Option<Row>) -> Result<(), CurveFault>
    ensures { GivesRows (with_row line (reverse rows.old.items) row) (reverse rows.new.items) result }
{
    let Some(row) = row else {
        return Err(CurveFault::BadRow(line));
    };
    if !in_range(&row) {
        return Err(CurveFault::OutOfRange(line));
    }
    if !in_order(rows, row.year) {
        return Err(CurveFault::Order(line));
    }
    if !is_near(rows, row.year) {
        return Err(CurveFault::Gap(line));
    }
    if is_full(rows) {
        return Err(CurveFault::TooMany(line));
    }
    push_row(rows, row)
}

/// Adds the row of a line, if it holds data.
fn take_line(rows: &mut Vec<Row>, number: u32, line: &[u8]) -> Result<(), CurveFault>
    ensures { GivesRows (with_line number (reverse rows.old.items) line.now) (reverse rows.new.items) result }
{
    if is_skipped(line) {
        return Ok(());
    }
    take_row(rows, number, row_of(line))
}

/// The rows in the order of the file.
fn read_rows(alloc: Global, bytes: &[u8]) -> Result<Vec<Row>, CurveFault>
    requires { length bytes.now < 2 ^ 32 - 1 }
    ensures said { IfOk result (λ rows. SayRows (data_lines bytes.now) rows.items) }
    ensures good { IfOk result (λ rows. AreGood rows.items) }
    ensures fault { IfErr result (λ fault. fault ≢ CurveFault.NoMemory → HasFault bytes.now fault) }
{
    let mut rows = Vec::new(alloc);
    let mut rest = bytes;
    let mut number = 1u32;
    while !rest.is_empty() {
        let (line, behind) = first_line(rest);
        take_line(&mut rows, number, line)?;
        rest = behind;
        number += 1;
    }
    Ok(rows)
}

/// Whether the second row is older than the first.
fn do_rise(rows: &[Row]) -> bool
    ensures { result ≡ do_rise rows.now }
{
    match rows {
        [first, second, ..] => first.year < second.year,
        _ => false,
    }
}

fn put_oldest_first(rows: &mut Vec<Row>)
    ensures { rows.new.items ≡ oldest_first rows.old.items }
{
    if do_rise(rows) {
        rows.reverse();
    }
}

/// The curve of a file in the form of IntCal20's `.14c`, whose rows may rise or fall.
///
/// A line is a row: cal BP, radiocarbon age and its one sigma, parted by commas or blanks; further fields aren't
/// read. Empty and blank lines, and those that begin with `#` or `!`, are skipped. The first line with a fault is
/// told, and there the first fault in the order of `CurveFault`. It takes no memory but for the rows.
pub fn read_curve(alloc: Global, bytes: &[u8]) -> Result<Curve, CurveFault>
    requires { length bytes.now < 2 ^ 32 - 1 }
    ensures ok { IfOk result (λ curve. IsCurveFile bytes.now curve) }
    ensures fault { IfErr result (λ fault. fault ≢ CurveFault.NoMemory → HasFault bytes.now fault) }
{
    let mut rows = read_rows(alloc, bytes)?;
    if rows.len() < 2 {
        return Err(CurveFault::TooFew);
    }
    put_oldest_first(&mut rows);
    Ok(Curve::of_rows(rows))
}
