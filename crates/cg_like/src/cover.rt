ghost use Rattle.std.specs.Prelude.{◌≡◌, option_map, Some, None, ◌<◌, IfOk, IfErr};
ghost use Rattle.cg_meaning.specs.Scene.{scene_of};
ghost use Rattle.cg_meaning.specs.Cover.{cover_fault, fault_at, fault_from, IsCovered};
ghost use Rattle.cg_meaning.specs.Weights.{distance_of};
ghost use Rattle.cg_model.specs.Dating.{dating_of};
ghost use Rattle.cg_like.specs.Cover.{rows_of, fault_in};
ghost use Rattle.cg_like.specs.Distance.{distance_in, IsKnown};

use crate::distance::{Distance, distance_at};
use cg_curve::Curve;
use cg_model::{Dating, Grid};
use cg_num::Year;

// 16,384 years in thousandths.
const FAR: u128 = 16_384_000;

/// Why a dating can't be weighed on a grid.
#[derive(Clone, Copy, Debug, PartialEq, Eq)]
pub enum LikeFault {
    /// A radiocarbon date, and no curve.
    NoCurve,
    /// The oldest year at fault, at which the curve has no value.
    Uncovered(Year),
    /// The oldest year at fault, which is more than 16,384 years from the dating.
    Far(Year),
}

/// Whether a dating can be weighed at each year of a grid. The oldest year at fault is told. A dating without an error
/// always can. Takes no memory.
pub fn covers(dating: &Dating, grid: &Grid, curve: Option<&Curve>) -> Result<(), LikeFault>
    ensures ok { IfOk result (λ _. IsCovered (scene_of grid.now (rows_of (option_map (λ c. c.now) curve.entry))) (dating_of dating.now)) }
    ensures fault { IfErr result (λ fault.
        cover_fault (scene_of grid.now (rows_of (option_map (λ c. c.now) curve.entry))) (dating_of dating.now) ≡ Some (fault_in fault)) }
{
    match dating {
        Dating::Free | Dating::Exact(_) => Ok(()),
        Dating::Normal(_, _) => first_fault(dating, grid, curve),
        Dating::Carbon(_, _) => {
            if curve.is_none() {
                return Err(LikeFault::NoCurve);
            }
            first_fault(dating, grid, curve)
        }
    }
}

/// The fault at the oldest year that has one, for a dating with an error.
fn first_fault(dating: &Dating, grid: &Grid, curve: Option<&Curve>) -> Result<(), LikeFault>
    ensures ok { IfOk result (λ _.
        fault_from (scene_of grid.now (rows_of (option_map (λ c. c.now) curve.entry))) (dating_of dating.now) 0 grid.now.cells ≡ None) }
    ensures fault { IfErr result (λ fault.
        fault_from (scene_of grid.now (rows_of (option_map (λ c. c.now) curve.entry))) (dating_of dating.now) 0 grid.now.cells ≡ Some (fault_in fault)) }
    ensures known { IsKnown (option_map (λ c. c.now) curve.entry) (dating_of dating.now) }
{
    for cell in 0..grid.cells() {
        check(grid.year(cell), distance_at(dating, grid, curve, cell))?;
    }
    Ok(())
}

/// The fault at a year, where the dating is this far from it.
fn check(year: Year, distance: Option<Distance>) -> Result<(), LikeFault>
    ensures ok { IfOk result (λ _. fault_at year (option_map distance_in distance) ≡ None) }
    ensures fault { IfErr result (λ fault. fault_at year (option_map distance_in distance) ≡ Some (fault_in fault)) }
{
    let Some(distance) = distance else {
        return Err(LikeFault::Uncovered(year));
    };
    let far = FAR * u128::from(distance.gap);
    if distance.p > far * far {
        return Err(LikeFault::Far(year));
    }
    Ok(())
}
