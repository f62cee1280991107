ghost use Rattle.std.specs.Prelude.{◌≡◌, ◌<◌, ◌^◌, option_map, IfOk};
ghost use Rattle.cg_meaning.specs.Scene.{scene_of};
ghost use Rattle.cg_meaning.specs.Cover.{IsCovered};
ghost use Rattle.cg_enc.specs.Enclosure.{IsExponent};
ghost use Rattle.cg_model.specs.Dating.{dating_of};
ghost use Rattle.cg_model.specs.Limits.{IsInRange};
ghost use Rattle.cg_like.specs.Cover.{rows_of};
ghost use Rattle.cg_like.specs.Distance.{distance_in, IsKnown, IsMeasured};
ghost use Rattle.cg_like.specs.Likelihood.{likelihood_of, weight_at, weights_of, IsLikelihood, HasWeights};

use crate::distance::{Distance, distance_at};
use cg_curve::Curve;
use cg_enc::Enc;
use cg_exp::exp_neg;
use cg_model::{Dating, Grid};
use cg_num::NoMemory;
use cg_table::Row;
use std::alloc::Global;

/// The weights of a dating, one for each cell of the grid, the oldest first.
pub fn weights(
    alloc: Global,
    dating: &Dating,
    grid: &Grid,
    curve: Option<&Curve>,
) -> Result<Row, NoMemory>
    requires ranged { IsInRange (dating_of dating.now) }
    requires covered { IsCovered (scene_of grid.now (rows_of (option_map (λ c. c.now) curve))) (dating_of dating.now) }
    ensures value { IfOk result (λ row. row ≡ weights_of (scene_of grid.now (rows_of (option_map (λ c. c.now) curve.entry))) (dating_of dating.now)) }

    // For every list of admitted weights, of which there are some.
    ensures encloses { IfOk result (λ row. IsLikelihood (scene_of grid.now (rows_of (option_map (λ c. c.now) curve.entry))) (dating_of dating.now) row) }
    ensures some { HasWeights (scene_of grid.now (rows_of (option_map (λ c. c.now) curve.entry))) (dating_of dating.now) }
{
    filled(alloc, dating, grid, curve)
}

fn filled(
    alloc: Global,
    dating: &Dating,
    grid: &Grid,
    curve: Option<&Curve>,
) -> Result<Row, NoMemory>
    requires ranged { IsInRange (dating_of dating.now) }
    requires covered { IsCovered (scene_of grid.now (rows_of (option_map (λ c. c.now) curve))) (dating_of dating.now) }
    ensures value { IfOk result (λ row. row ≡ weights_of (scene_of grid.now (rows_of (option_map (λ c. c.now) curve.entry))) (dating_of dating.now)) }
    ensures known { IsKnown (option_map (λ c. c.now) curve.entry) (dating_of dating.now) }
{
    let mut row = Row::new(alloc);
    for cell in 0..grid.cells() {
        row.push(weight_at(dating, grid, curve, cell))?;
    }
    Ok(row)
}

/// The weight at a cell.
fn weight_at(dating: &Dating, grid: &Grid, curve: Option<&Curve>, cell: usize) -> Enc
    requires cell { cell < grid.now.cells }
    requires ranged { IsInRange (dating_of dating.now) }
    requires covered { IsCovered (scene_of grid.now (rows_of (option_map (λ c. c.now) curve))) (dating_of dating.now) }
    ensures value { result ≡ weight_at (scene_of grid.now (rows_of (option_map (λ c. c.now) curve.entry))) (dating_of dating.now) cell }
    ensures near { IsExponent (2 ^ 60) result.exp }
    ensures known { IsKnown (option_map (λ c. c.now) curve.entry) (dating_of dating.now) }
{
    if let Some(distance) = distance_at(dating, grid, curve, cell) {
        return likelihood(distance);
    }
    if grid.admits(dating, cell) {
        return Enc::of_whole(1);
    }
    Enc::zero()
}

/// The root of e^-z gap²/q, wider by one unit at each end.
fn likelihood(distance: Distance) -> Enc
    requires { IsMeasured (distance_in distance) }
    ensures value { result ≡ likelihood_of (distance_in distance) }
    ensures near { IsExponent (2 ^ 60) result.exp }
{
    let gap = u128::from(distance.gap);
    let power = exp_neg(distance.p, distance.q);
    let square = power
        .times(&Enc::of_whole(gap * gap))
        .over(&Enc::of_whole(distance.q));
    square.root().margin()
}
