//! How far a dating is from a cell of a grid.
ghost use Rattle.std.specs.Prelude.{◌≡◌, ◌<◌, option_map};
ghost use Rattle.cg_meaning.specs.Scene.{scene_of};
ghost use Rattle.cg_meaning.specs.Weights.{distance_of, from_year, from_curve, square};
ghost use Rattle.cg_model.specs.Dating.{dating_of};
ghost use Rattle.cg_curve.specs.Point.{point_of, IsWithin};
ghost use Rattle.cg_like.specs.Cover.{rows_of};
ghost use Rattle.cg_like.specs.Distance.{distance_in, IsKnown};

use cg_curve::{At, Curve};
use cg_model::{Dating, Grid};
use cg_num::{Decimal, Year};

/// z = `p`/`q` in the likelihood, and `q`/`gap`² is the variance of both errors in thousandths of a year.
#[derive(Clone, Copy)]
pub(crate) struct Distance {
    pub p: u128,
    pub q: u128,
    pub gap: u32,
}

/// How far a dating is from a cell: none for a dating without an error, and where the curve has no value.
pub(crate) fn distance_at(
    dating: &Dating,
    grid: &Grid,
    curve: Option<&Curve>,
    cell: usize,
) -> Option<Distance>
    requires { cell < grid.now.cells }
    ensures value { option_map distance_in result
        ≡ distance_of (scene_of grid.now (rows_of (option_map (λ c. c.now) curve.entry))) (dating_of dating.now) cell }
    ensures known { IsKnown (option_map (λ c. c.now) curve.entry) (dating_of dating.now) }
{
    let year = grid.year(cell);
    match dating {
        Dating::Free | Dating::Exact(_) => None,
        Dating::Normal(own, error) => Some(from_year(own, error, &year)),
        Dating::Carbon(age, error) => Some(from_curve(age, error, curve?.at(year.bp())?)),
    }
}

/// From a year with an error.
fn from_year(own: &Year, error: &Decimal, year: &Year) -> Distance
    ensures { distance_in result ≡ from_year own.now error.now year.now }
{
    Distance {
        p: square(1_000 * i64::from(year.bp() - own.bp())),
        q: square(error.thousandths()),
        gap: 1,
    }
}

/// From a radiocarbon age with an error, where the curve is at this point.
fn from_curve(age: &Decimal, error: &Decimal, at: At) -> Distance
    requires { IsWithin at }
    ensures { distance_in result ≡ from_curve age.now error.now (point_of at) }
{
    let gap = i64::from(at.gap);
    Distance {
        p: square(age.thousandths() * gap - at.age),
        q: square(error.thousandths() * gap) + square(at.sigma),
        gap: at.gap,
    }
}

fn square(number: i64) -> u128
    ensures { result ≡ square number }
{
    let magnitude = u128::from(number.unsigned_abs());
    magnitude * magnitude
}
