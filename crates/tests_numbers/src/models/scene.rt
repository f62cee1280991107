//! Models and curves that are read from texts, on grids.
ghost use Rattle.std.specs.Prelude.{◌≡◌, IfOk, length, option_map};
ghost use Rattle.cg_meaning.specs.Tree.{root_of};
ghost use Rattle.cg_meaning.specs.Scene.{scene_of};
ghost use Rattle.cg_meaning.specs.Cover.{AreCovered};
ghost use Rattle.cg_like.specs.Cover.{rows_of};
ghost use Rattle.cg_up.specs.Curve.{rows_at};

use crate::grids::grid;
use cg_cql::read_model;
use cg_curve::{Curve, Curves, read_curve};
use cg_grammar::CqlFault;
use cg_like::{LikeFault, covers};
use cg_marginal::Marginal;
use cg_model::{Grid, ModelTree};
use cg_table::Steps;
use cg_up::evaluate;
use std::alloc::Global;
use std::sync::ledger::Ledger;
use std::test::Fail;

const MAX_BYTES: usize = 100_000;

/// A model, a grid, and one curve or none.
#[derive(Drop)]
pub(super) struct Scene {
    pub(super) model: ModelTree,
    pub(super) grid: Grid,
    pub(super) curves: Curves,
}

/// The model of a text, on the grid from the older to the younger year, with the curve of a text, or with none where
/// that is empty.
pub(super) fn read_scene(
    alloc: Global,
    model: &str,
    curve: &str,
    years: (i64, i64),
) -> Result<Scene, Fail> {
    Ok(Scene {
        model: read(alloc, model)?,
        grid: grid(years)?,
        curves: curves(alloc, curve)?,
    })
}

fn read_short(alloc: Global, text: &str) -> Result<ModelTree, Option<CqlFault>> {
    if text.len() > MAX_BYTES {
        return Err(None);
    }
    match read_model(alloc, text.as_bytes()) {
        Ok(model) => Ok(model),
        Err(fault) => Err(Some(fault)),
    }
}

fn read(alloc: Global, text: &str) -> Result<ModelTree, Fail> {
    match read_short(alloc, text) {
        Ok(model) => Ok(model),
        Err(_) => Err("no model".into()),
    }
}

fn curves(alloc: Global, text: &str) -> Result<Curves, Fail> {
    let mut curves = Curves::new(alloc);
    if text.is_empty() {
        return Ok(curves);
    }
    if text.len() > 1000 {
        return Err("a long curve".into());
    }
    curves.push(b"C", read_curve(alloc, text.as_bytes())?)?;
    Ok(curves)
}

/// The last of the curves.
pub(super) fn last(curves: &Curves) -> Option<&Curve>
    ensures { rows_of (option_map (λ c. c.now) result) ≡ rows_at curves.now (length curves.now) }
{
    match curves.count() {
        0 => None,
        number => Some(curves.get(number)),
    }
}

// Whether each event can be weighed on the last of the curves.
fn weigh_all(model: &ModelTree, grid: &Grid, curves: &Curves) -> Result<(), LikeFault>
    ensures { IfOk result (λ _. AreCovered (root_of model.now) (scene_of grid.now (rows_at curves.now (length curves.now)))) }
{
    let curve = last(curves);
    for event in 0..model.events() {
        covers(model.dating(event), grid, curve)?;
    }
    Ok(())
}

/// The marginal of an event, where each can be weighed.
pub(super) fn marginal<L: Ledger>(
    alloc: Global,
    scene: &Scene,
    event: u32,
    steps: &mut Steps<L>,
) -> Result<Marginal, Fail> {
    let Scene {
        model,
        grid,
        curves,
    } = scene;
    weigh_all(model, grid, curves)?;
    if event >= model.events() {
        return Err("no such event".into());
    }
    Ok(evaluate(alloc, model, event, grid, curves, curves.count(), steps)?)
}
