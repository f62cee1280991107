//! The curve that serves a model, and whether each event can be weighed.
ghost use Rattle.std.specs.Prelude.{◌≡◌, ◌≤◌, length, option_copied, option_map, Some, None, IfOk, IfErr};
ghost use Rattle.cg_meaning.specs.Tree.{datings_of, root_of};
ghost use Rattle.cg_meaning.specs.Cover.{first_fault};
ghost use Rattle.cg_like.specs.Cover.{rows_of, fault_in};
ghost use Rattle.cg_sharing.specs.Course.{scene_by};
ghost use Rattle.cg_session.specs.Calibration.{curve_number, calibration_of};

use cg_curve::{Curve, Curves};
use cg_like::{LikeFault, covers};
use cg_model::{Grid, ModelTree, Name};

/// The number of the curve that serves a model, by the name that the model gives: that of the first where it gives
/// none, and 0 where there is no such curve.
pub(crate) fn curve_number(curves: &Curves, name: Option<&Name>) -> u8
    ensures number { result ≡ curve_number curves.now (option_copied name.entry) }
    ensures known { result ≤ length curves.now }
{
    match name {
        Some(name) => number_of(curves, name),
        None => first_number(curves),
    }
}

fn number_of(curves: &Curves, name: &Name) -> u8
    ensures number { result ≡ curve_number curves.now (Some name.now) }
    ensures known { result ≤ length curves.now }
{
    match curves.find(name.text().as_bytes()) {
        Some(number) => number,
        None => 0,
    }
}

fn first_number(curves: &Curves) -> u8
    ensures number { result ≡ curve_number curves.now None }
    ensures known { result ≤ length curves.now }
{
    if curves.count() == 0 { 0 } else { 1 }
}

fn curve_of<'a>(curves: &'a Curves, name: Option<&Name>) -> Option<&'a Curve>
    ensures { rows_of (option_map (λ c. c.now) result) ≡ calibration_of curves.now (option_copied name.entry) }
{
    match curve_number(curves, name) {
        0 => None,
        number => Some(curves.get(number)),
    }
}

/// Whether each event of a model can be weighed. The fault of the first that can't be is told, in the order of the
/// text.
pub(crate) fn weigh_all(model: &ModelTree, grid: &Grid, curves: &Curves) -> Result<(), LikeFault>
    ensures ok { IfOk result (λ _.
        first_fault (scene_by (calibration_of curves.now) model.now grid.now) (datings_of (root_of model.now)) ≡ None) }
    ensures fault { IfErr result (λ fault.
        first_fault (scene_by (calibration_of curves.now) model.now grid.now) (datings_of (root_of model.now))
        ≡ Some (fault_in fault)) }
{
    let curve = curve_of(curves, model.curve());
    for event in 0..model.events() {
        covers(model.dating(event), grid, curve)?;
    }
    Ok(())
}
