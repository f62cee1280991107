//! The rows that are made on the spot, and the scene by which all rows are made.
ghost use Rattle.std.specs.Prelude.{◌≡◌, ◌≤◌, All, IfOk, length, map, option_map};
ghost use Rattle.cg_meaning.specs.Scene.{scene_of};
ghost use Rattle.cg_model.specs.Dating.{dating_of};
ghost use Rattle.cg_model.specs.Limits.{IsInRange};
ghost use Rattle.cg_like.specs.Cover as cover;
ghost use Rattle.cg_like.specs.Likelihood.{IsScene};
ghost use Rattle.cg_message.specs.Curve.{rows_at};
ghost use Rattle.cg_message.specs.Pass.{spot_row};

use cg_curve::{Curve, Curves};
use cg_like::weights;
use cg_model::{Dating, Grid};
use cg_num::NoMemory;
use cg_table::Row;
use std::alloc::Global;

/// For each dating its row, if it has no error.
pub(crate) fn spot_rows(
    alloc: Global,
    datings: &[Dating],
    grid: &Grid,
    curve: Option<&Curve>,
) -> Result<Vec<Option<Row>>, NoMemory>
    requires { All IsInRange (map dating_of datings.now) }
    ensures { IfOk result (λ rows. rows.items
        ≡ map (spot_row (scene_of grid.now (cover.rows_of (option_map (λ c. c.now) curve.entry)))) (map dating_of datings.now)) }
{
    let mut rows = Vec::new(alloc);
    for dating in datings {
        rows.push(spot_row(alloc, dating, grid, curve)?)?;
    }
    Ok(rows)
}

fn spot_row(
    alloc: Global,
    dating: &Dating,
    grid: &Grid,
    curve: Option<&Curve>,
) -> Result<Option<Row>, NoMemory>
    requires { IsInRange (dating_of dating.now) }
    ensures { IfOk result (λ row.
        row ≡ spot_row (scene_of grid.now (cover.rows_of (option_map (λ c. c.now) curve.entry))) (dating_of dating.now)) }
{
    match dating {
        Dating::Free | Dating::Exact(_) => Ok(Some(weights(alloc, dating, grid, curve)?)),
        Dating::Normal(_, _) | Dating::Carbon(_, _) => Ok(None),
    }
}

/// The curve of a number, counted from 1, and none for 0.
pub(crate) fn curve_of(curves: &Curves, number: u8) -> Option<&Curve>
    requires { number ≤ length curves.now }
    ensures { cover.rows_of (option_map (λ c. c.now) result) ≡ rows_at curves.now number }
{
    if number == 0 {
        return None;
    }
    Some(curves.get(number))
}

/// That a grid and a curve are as they are read. Does nothing.
pub(crate) fn are_read(grid: &Grid, curve: Option<&Curve>)
    ensures { IsScene (scene_of grid.now (cover.rows_of (option_map (λ c. c.now) curve.entry))) }
{
    let youngest = grid.cells() - 1;
    let _old = grid.year(0).bp();
    let _young = grid.year(youngest).bp();
    if let Some(rows) = curve {
        let _first = rows.at(0);
    }
}
