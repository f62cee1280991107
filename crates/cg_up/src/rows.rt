//! The rows of weights of a model's events.
ghost use Rattle.std.specs.Prelude.{◌≡◌, ◌≤◌, IfOk, length, map, option_map};
ghost use Rattle.cg_meaning.specs.Tree.{datings_of, root_of};
ghost use Rattle.cg_meaning.specs.Scene.{scene_of};
ghost use Rattle.cg_meaning.specs.Cover.{AreCovered};
ghost use Rattle.cg_like.specs.Cover as cover;
ghost use Rattle.cg_like.specs.Likelihood.{weights_of};
ghost use Rattle.cg_recipe.specs.Bounds.{AreLight};
ghost use Rattle.cg_up.specs.Curve.{rows_at};
ghost use Rattle.cg_up.specs.Pass.{rows_of};
ghost use Rattle.cg_up.specs.Weighable.{AreWeighable};

use cg_curve::{Curve, Curves};
use cg_like::weights;
use cg_model::{Grid, ModelTree};
use cg_num::NoMemory;
use cg_table::Row;
use std::alloc::Global;

/// A row of weights for each event, in the order of the text.
pub(crate) fn rows_of(
    alloc: Global,
    model: &ModelTree,
    grid: &Grid,
    curve: Option<&Curve>,
) -> Result<Vec<Row>, NoMemory>
    requires { AreCovered (root_of model.now) (scene_of grid.now (cover.rows_of (option_map (λ c. c.now) curve))) }
    ensures value { IfOk result (λ rows. rows.items
        ≡ map (weights_of (scene_of grid.now (cover.rows_of (option_map (λ c. c.now) curve.entry)))) (datings_of (root_of model.now))) }
    ensures weighable { IfOk result (λ _.
        AreWeighable (scene_of grid.now (cover.rows_of (option_map (λ c. c.now) curve.entry))) (datings_of (root_of model.now))) }
    ensures light { IfOk result (λ rows. AreLight grid.now.cells (rows_of grid.now.cells rows.items)) }
{
    let mut rows = Vec::new(alloc);
    for event in 0..model.events() {
        rows.push(weights(alloc, model.dating(event), grid, curve)?)?;
    }
    Ok(rows)
}

/// The curve of a number, counted from 1, and none for 0.
pub(crate) fn curve_of(curves: &Curves, number: u8) -> Option<&Curve>
    requires { number ≤ length curves.now }
    ensures { cover.rows_of (option_map (λ c. c.now) result) ≡ rows_at curves.now number }
{
    if number == 0 {
        return None;
    }
    Some(curves.get(number))
}
