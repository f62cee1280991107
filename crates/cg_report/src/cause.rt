use cg_edit::{EditFault, Kind};
use cg_model::Limit;
use cg_num::Year;

/// Why a command of a session is refused.
#[derive(Clone, Copy, Debug, PartialEq, Eq)]
pub enum SessionCause {
    /// No version is open.
    NotOpen,
    /// There is no grid.
    NoGrid,
    /// The grid would have this many years.
    GridLimit(i64),
    /// No node has the name.
    NoName,
    /// So many nodes have it.
    Ambiguous(u32),
    /// The node, or the one that would hold a Boundary, is of this kind.
    WrongKind(Kind),
    /// The changed model would pass this limit.
    Limit(Limit),
    /// No model has the name.
    NoModel,
    /// There are only so many versions.
    NoVersion(u32),
    /// The version was changed from no other.
    NoParent,
    /// The head is this newer version.
    Moved(u32),
    /// A radiocarbon date has no curve.
    NoCurve,
    /// The curve has no value at this year.
    Uncovered(Year),
    /// At this year an event is more than 16,384 years away.
    Far(Year),
}

impl SessionCause {
    ghost use Rattle.std.specs.Prelude.{◌≡◌, option_map};
    ghost use Rattle.cg_sharing.specs.Cause as meaning;
    ghost use Rattle.cg_edit.specs.Plain.{fault_in};
    ghost use Rattle.cg_report.specs.Cause.{cause_in};

    /// The cause of a change's fault. Want of memory is none.
    pub fn of_fault(fault: EditFault) -> Option<SessionCause>
        ensures { option_map cause_in result ≡ option_map (λ f. meaning.Fault f) (fault_in fault) }
    {
        match fault {
            EditFault::NoName => Some(SessionCause::NoName),
            EditFault::Ambiguous(count) => Some(SessionCause::Ambiguous(count)),
            EditFault::WrongKind(kind) => Some(SessionCause::WrongKind(kind)),
            EditFault::Limit(limit) => Some(SessionCause::Limit(limit)),
            EditFault::NoMemory => None,
        }
    }
}
