ghost use Rattle.std.specs.Prelude.{◌≤◌, length, All, IfOk};
ghost use Rattle.std.specs.Arc.{arc_value};
ghost use Rattle.cg_sharing.specs.Course.{AreFit};
ghost use Rattle.cg_session.specs.Calibration.{calibration_of};
ghost use Rattle.cg_interleaving.specs.Run.{IsRunOf};

use crate::sessions::Sessions;
use cg_book::Journal;
use cg_curve::Curves;
use cg_num::NoMemory;
use cg_script::Script;
use cg_table::Steps;
use cg_versions::StartModels;
use std::alloc::Global;
use std::sync::Arc;
use std::sync::ledger::Ledger;

/// What sessions over one book came to.
#[derive(Drop)]
pub struct Run {
    /// All acts and answers of the book.
    pub journal: Journal,
    /// What the sessions wrote, in their order.
    pub transcripts: Vec<Vec<u8>>,
    /// Whether want of memory stopped a session.
    pub stopped: bool,
}

/// Runs a session of each script over one book of these models, whose cache holds at most so many messages, 0 to 256;
/// at most eight scripts. The sessions are numbered from 1 in the
/// order of the scripts. Each turn names a session, which makes its next act, if it has one; a number that is no
/// session's does nothing. When the turns are used up, the sessions run to their ends in their order. A model's dates
/// are read off the curve that it names, or the first where it names none. Each product of two enclosures in the tables
/// of a marginal is a step.
///
/// `NoMemory` comes only before a session has begun. Want of memory later stops one session, and the others go on.
pub fn run_in_turns<L: Ledger>(
    alloc: Global,
    models: StartModels,
    capacity: u16,
    scripts: Vec<Script>,
    turns: &[u32],
    curves: &Arc<Curves>,
    steps: &mut Steps<L>,
) -> Result<Run, NoMemory>
    requires ready { All AreFit scripts.items }
    requires capacity { capacity ≤ 256 }
    requires few { length scripts.items ≤ 8 }
    ensures { IfOk result (λ run.
        IsRunOf (calibration_of (arc_value curves.now)) models capacity scripts.items turns.now run) }
{
    let mut transcripts = Vec::new(alloc);
    transcripts.reserve(scripts.len())?;
    let mut all = Sessions::new(alloc, models, capacity, scripts, curves)?;
    all.take_turns(alloc, turns, curves, steps);
    all.finish_all(alloc, curves, steps);
    Ok(all.close(transcripts))
}
