//! The marginal of an event.
ghost use Rattle.std.specs.Prelude.{◌≡◌, ◌+◌, ◌<◌, ◌≤◌, IfOk, IfSome, length};
ghost use Rattle.cg_meaning.specs.Tree.{count, count_all, root_of};
ghost use Rattle.cg_meaning.specs.Scene.{scene_of};
ghost use Rattle.cg_meaning.specs.Cover.{AreCovered};
ghost use Rattle.cg_meaning.specs.Posterior.{IsMarginal};
ghost use Rattle.cg_model.specs.Limits.{IsWithinLimits};
ghost use Rattle.cg_model.specs.Node.{trees_of};
ghost use Rattle.cg_marginal.specs.Marginal.{pairs_of};
ghost use Rattle.cg_marginal.specs.Pairs.{ArePairs};
ghost use Rattle.cg_part.specs.Elements.{element_of};
ghost use Rattle.cg_recipe.specs.Recipe.{parts_of, recipe};
ghost use Rattle.cg_recipe.specs.Ticks.{part_ticks};
ghost use Rattle.cg_up.specs.Curve.{rows_at};
ghost use Rattle.cg_up.specs.Pass.{IsReady, pass_of, root};

use crate::arrange::members_of;
use crate::down::parts_at;
use crate::element::Element;
use crate::pass::Pass;
use crate::rows::{curve_of, rows_of};
use cg_context::root;
use cg_curve::Curves;
use cg_marginal::{Marginal, finish};
use cg_model::{Grid, GroupKind, Members, ModelTree};
use cg_num::NoMemory;
use cg_table::{Row, Steps};
use std::alloc::Global;
use std::sync::ledger::Ledger;

/// The posterior of an event at each cell, in parts per million: a lower end is rounded down and an upper end up.
/// `Impossible` comes exactly where no dating is allowed.
///
/// Events are counted from 0 in the order of the text. `curve` is the number of the curve that serves all radiocarbon
/// dates, counted from 1, and 0 for none. Each product of two enclosures in the tables is a step.
pub fn evaluate<L: Ledger>(
    alloc: Global,
    model: &ModelTree,
    event: u32,
    grid: &Grid,
    curves: &Curves,
    curve: u8,
    steps: &mut Steps<L>,
) -> Result<Marginal, NoMemory>
    requires event { event < count (root_of model.now) }
    requires curve { curve ≤ length curves.now }
    requires covered { AreCovered (root_of model.now) (scene_of grid.now (rows_at curves.now curve)) }
    ensures recipe { IfOk result (λ marginal.
        pairs_of marginal ≡ recipe (root_of model.now) (scene_of grid.now (rows_at curves.now curve)) event) }
    ensures holds { IfOk result (λ marginal.
        IsMarginal (root_of model.now) (scene_of grid.now (rows_at curves.now curve)) event (pairs_of marginal)) }

    // Lower and upper end are at most 3 apart.
    ensures narrow { IfOk result (λ marginal. IfSome (pairs_of marginal) ArePairs) }
    ensures ticks { steps.new ≤ steps.old + part_ticks grid.now.cells event (element_of 0 (root_of model.now)) }
{
    let rows = rows_of(alloc, model, grid, curve_of(curves, curve))?;
    let pass = Pass::new(alloc, grid.cells(), &rows);
    let parts = parts_of(&pass, model.top(), event, steps)?;
    finish(alloc, &parts)
}

// What the datings with the event at each cell have in all.
fn parts_of<L: Ledger>(
    pass: &Pass,
    top: &Members,
    event: u32,
    steps: &mut Steps<L>,
) -> Result<Row, NoMemory>
    requires ready { IsReady pass.now }
    requires limits { IsWithinLimits (trees_of top.now) }
    requires rows { count_all (trees_of top.now) ≤ length pass.now.rows.now }
    requires event { event < count_all (trees_of top.now) }
    ensures value { IfOk result (λ parts. parts
        ≡ parts_of (pass_of pass.now) event (element_of 0 (root (trees_of top.now)))) }
    ensures ticks { steps.new ≤ steps.old
        + part_ticks pass.now.cells event (element_of 0 (root (trees_of top.now))) }
{
    let whole = Element::Group(GroupKind::Phase, members_of(pass.alloc(), 0, top)?);
    let x = root(pass.alloc(), pass.cells())?;
    parts_at(pass, event, &whole, x, steps)
}
