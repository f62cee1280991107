ghost use Rattle.std.specs.Prelude.{pos, negsuc, ◌≤ℤ◌, IsTrue};
ghost use Rattle.cg_model.specs.Dating.{dating_of};
ghost use Rattle.cg_model.specs.Limits.{IsInRange};

mod cases;

use crate::ends::{Ends, ends};
use crate::grids::{grid, year};
use cases::{COVERED, Given, WEIGHED, Want};
use cg_curve::{Curve, read_curve};
use cg_like::{LikeFault, covers, weights};
use cg_model::{Dating, Grid};
use cg_num::Decimal;
use std::alloc::Global;
use std::test::Fail;

fn decimal(thousandths: i64) -> Result<Decimal, Fail> {
    Ok(Decimal::of_thousandths(thousandths).ok_or("no decimal")?)
}

fn dating(given: Given) -> Result<Dating, Fail> {
    match given {
        Given::Free => Ok(Dating::Free),
        Given::Exact(at) => Ok(Dating::Exact(year(at)?)),
        Given::Normal(at, error) => Ok(Dating::Normal(year(at)?, decimal(error)?)),
        Given::Carbon(age, error) => Ok(Dating::Carbon(decimal(age)?, decimal(error)?)),
    }
}

fn curve(alloc: Global, text: &[u8]) -> Result<Option<Curve>, Fail> {
    if text.is_empty() || text.len() > 1000 {
        return Ok(None);
    }
    Ok(Some(read_curve(alloc, text)?))
}

fn told(fault: &LikeFault) -> Want {
    match fault {
        LikeFault::NoCurve => Want::NoCurve,
        LikeFault::Uncovered(year) => Want::Uncovered(year.bp()),
        LikeFault::Far(year) => Want::Far(year.bp()),
    }
}

fn answer(dating: &Dating, grid: &Grid, curve: Option<&Curve>) -> Want {
    match covers(dating, grid, curve) {
        Ok(()) => Want::Covered,
        Err(fault) => told(&fault),
    }
}

#[test]
fn where_a_dating_can_be_weighed(rt: HostRuntime) -> Result<(), Fail> {
    for ((text, years, given), want) in &COVERED {
        let curve = curve(rt.alloc(), text)?;
        let found = answer(&dating(*given)?, &grid(*years)?, curve.as_ref());
        assert_eq!(rt; found, *want, "{given:?} on {years:?}");
    }
    Ok(())
}

// Whether the values of a dating are in their ranges.
fn is_in_range(dating: &Dating) -> bool
    ensures { IsTrue result → IsInRange (dating_of dating.now) }
{
    match dating {
        Dating::Free => true,
        Dating::Exact(year) => year.bp() <= 60_000,
        Dating::Normal(year, error) => year.bp() <= 60_000 && is_error(error),
        Dating::Carbon(age, error) => is_age(age) && is_error(error),
    }
}

fn is_age(age: &Decimal) -> bool
    ensures low { IsTrue result → negsuc 1999999 ≤ℤ age.now }
    ensures high { IsTrue result → age.now ≤ℤ pos 60000000 }
{
    let thousandths = age.thousandths();
    -2_000_000 <= thousandths && thousandths <= 60_000_000
}

fn is_error(error: &Decimal) -> bool
    ensures some { IsTrue result → pos 1000 ≤ℤ error.now }
    ensures few { IsTrue result → error.now ≤ℤ pos 10000000 }
{
    let thousandths = error.thousandths();
    1_000 <= thousandths && thousandths <= 10_000_000
}

// The three numbers of the entry at a cell, where the dating can be weighed.
fn entry(
    alloc: Global,
    dating: &Dating,
    grid: &Grid,
    curve: Option<&Curve>,
    cell: usize,
) -> Result<Option<Ends>, Fail> {
    if !is_in_range(dating) || cell >= grid.cells() {
        return Ok(None);
    }
    match covers(dating, grid, curve) {
        Err(_) => Ok(None),
        Ok(()) => {
            let row = weights(alloc, dating, grid, curve)?;
            Ok(Some(ends(row.get(cell))))
        }
    }
}

#[test]
fn rows_of_weights(rt: HostRuntime) -> Result<(), Fail> {
    for ((text, years, given), cell, ends) in &WEIGHED {
        let curve = curve(rt.alloc(), text)?;
        let found = entry(
            rt.alloc(),
            &dating(*given)?,
            &grid(*years)?,
            curve.as_ref(),
            *cell,
        )?;
        assert_eq!(rt; found, Some(*ends), "{given:?} on {years:?} at {cell}");
    }
    Ok(())
}
