//! The event that a print is for.
ghost use Rattle.std.specs.Prelude.{◌≡◌, ◌≢◌, ◌<◌, [], IfOk, IfErr, Ok, Err};
ghost use Rattle.cg_meaning.specs.Tree.{count_all, root_of};
ghost use Rattle.cg_meaning.specs.Cover.{AreCovered};
ghost use Rattle.cg_like.specs.Cover as like;
ghost use Rattle.cg_sharing.specs.Edit.{EditFault};
ghost use Rattle.cg_sharing.specs.Cause.{Fault, Cover};
ghost use Rattle.cg_sharing.specs.Course.{event_of, event_in, scene_by};
ghost use Rattle.cg_report.specs.Cause.{cause_in};
ghost use Rattle.cg_session.specs.Calibration.{calibration_of};

use crate::cover::weigh_all;
use cg_curve::Curves;
use cg_edit::Kind;
use cg_like::LikeFault;
use cg_model::{Found, Grid, ModelTree, Name};
use cg_report::SessionCause;

// The cause of an event that can't be weighed.
fn of_cover(fault: LikeFault) -> SessionCause
    ensures { cause_in result ≡ Cover (like.fault_in fault) }
{
    match fault {
        LikeFault::NoCurve => SessionCause::NoCurve,
        LikeFault::Uncovered(year) => SessionCause::Uncovered(year),
        LikeFault::Far(year) => SessionCause::Far(year),
    }
}

// The number of the event of a name that isn't empty, counted from 0 in the order of the text. The cause is that no
// node or several have the name, or that a group has it.
fn event_of(model: &ModelTree, name: &Name) -> Result<u32, SessionCause>
    requires { name.now ≢ [] }
    ensures ok { IfOk result (λ event. event_of name.now model.now.top ≡ Ok event) }
    ensures within { IfOk result (λ event. event < count_all model.now.top) }
    ensures err { IfErr result (λ cause. (fault : EditFault) × (event_of name.now model.now.top ≡ Err fault)
        × (cause_in cause ≡ Fault fault)) }
{
    match model.find(name) {
        Found::Nobody => Err(SessionCause::NoName),
        Found::Many(count) => Err(SessionCause::Ambiguous(count)),
        Found::One(place) => match model.event_number(place) {
            Some(event) => Ok(event),
            None => Err(SessionCause::WrongKind(Kind::of(model.node(place)))),
        },
    }
}

/// The number of the event of a name whose marginal can be told. Where the name is an event's, the cause is that of the
/// first event, in the order of the text, that can't be weighed.
pub(crate) fn event_in(
    model: &ModelTree,
    name: &Name,
    grid: &Grid,
    curves: &Curves,
) -> Result<u32, SessionCause>
    requires { name.now ≢ [] }
    ensures ok { IfOk result (λ event.
        event_in (scene_by (calibration_of curves.now) model.now grid.now) name.now model.now ≡ Ok event) }
    ensures within { IfOk result (λ event. event < count_all model.now.top) }
    ensures covered { IfOk result (λ _.
        AreCovered (root_of model.now) (scene_by (calibration_of curves.now) model.now grid.now)) }
    ensures err { IfErr result (λ cause.
        event_in (scene_by (calibration_of curves.now) model.now grid.now) name.now model.now ≡ Err (cause_in cause)) }
{
    let event = event_of(model, name)?;
    match weigh_all(model, grid, curves) {
        Ok(()) => Ok(event),
        Err(fault) => Err(of_cover(fault)),
    }
}
