//! The top call.

ghost use Rattle.std.specs.Prelude.{◌≡◌, ◌⊎◌, ◌<◌, ◌≤◌, [], false, length, map, string_bytes, All, IfOk, Some};
ghost use Rattle.cg_io.specs.Causes.{Rose};
ghost use Rattle.cg_sharing.specs.Course.{AreFit};
ghost use Rattle.cg_session.specs.Calibration.{calibration_of};
ghost use Rattle.cg_interleaving.specs.Run.{IsRunOf};
ghost use Rattle.cg_words.specs.Words.{AreNoWords};
ghost use Rattle.cg_run.specs.Run.{AreAccepted, ReadsAll, IsDone, IsCutOff, HasStopped, IsJournal};
ghost use Rattle.cg_run.specs.Run.{EndsAt, CausesStatus, BeginsNone};
ghost use Rattle.cg_run.specs.Status.{status_of};

use crate::ended::Ended;
use crate::output::write_run;
use cg_book::Journal;
use cg_files::{FileFault, Inputs, read_all};
use cg_interleaving::{Run, run_in_turns};
use cg_io::{Shelf, Sink};
use cg_num::NoMemory;
use cg_prints::prints_are_founded;
use cg_ranges::ranges_cover;
use cg_recipe::recipes_are_right;
use cg_report::Status;
use cg_table::Steps;
use cg_words::request_of;
use std::alloc::Global;
use std::marker::Brand;
use std::sync::Arc;
use std::sync::ledger::{Blank, Ledger};

fn status_of(fault: FileFault) -> Status
    ensures { result ≡ status_of fault }
{
    match fault {
        FileFault::Failed(file) => Status::ReadFault(file),
        FileFault::Refused(file, line, cause) => Status::Refused(file, line, cause),
        FileFault::NoMemory => Status::NoMemory,
    }
}

/// An end before a session began.
fn unbegun(alloc: Global, status: Status) -> Ended
    ensures status { result.status ≡ status }
    ensures journal { result.journal ≡ [] }
    ensures taken { result.taken ≡ 0 }
{
    Ended {
        status,
        journal: Journal::new(alloc),
        taken: 0,
    }
}

/// Runs the sessions of the files in turns, over a cache for so many messages. Their products of enclosures are counted from 0.
fn run_sessions<L: Ledger>(
    alloc: Global,
    inputs: Inputs,
    capacity: u16,
    turns: &[u32],
    blank: Blank,
) -> Result<Run, NoMemory>
    requires capacity { capacity ≤ 256 }
    requires ready { All AreFit inputs.scripts.items }
    requires few { length inputs.scripts.items ≤ 8 }
    requires name { blank.name ≡ L.name }
    requires parts { blank.parts ≡ L.parts }
    requires some { 0 < L.parts }
    ensures { IfOk result (λ run.
        IsRunOf (calibration_of inputs.curves) inputs.models capacity inputs.scripts.items turns.now run) }
{
    let mut steps = Steps::<L>::open(blank);
    let Inputs {
        curves,
        models,
        scripts,
    } = inputs;
    let curves = Arc::new(alloc, curves)?;
    run_in_turns(alloc, models, capacity, scripts, turns, &curves, &mut steps)
}

/// Runs the words of the command line: reads the curves, the models and the session scripts, lets the sessions take
/// turns over one book of the models with a cache of the words' size, and writes their transcripts. A model's dates are read off the curve that it
/// names, or the first where it names none.
pub fn run_alone<H: Shelf, K: Sink>(
    alloc: Global,
    words: &[String],
    shelf: &mut H,
    out: &mut K,
) -> Ended
    // Each session did all of its script, and its transcript was taken, and no more. Each marginal that is printed
    // holds, and each range has its part of the posterior, of that session's own version at that command, under every
    // admitted weighting.
    ensures done { result.status ≡ Status.Done
        → IsDone (map string_bytes words.now) (H.told shelf.old) (K.taken out.old) (K.taken out.new)
        result.journal result.taken }

    // Where the words ask for nothing, nothing is read.
    ensures usage { result.status ≡ Status.Usage → AreNoWords (map string_bytes words.now) }
    ensures no_words { AreNoWords (map string_bytes words.now)
        → (result.status ≡ Status.Usage) ⊎ (result.status ≡ Status.NoMemory) }
    ensures unread { AreNoWords (map string_bytes words.now) → shelf.new ≡ shelf.old }

    // Each file is read once, up to the first that is not accepted.
    ensures once { (result.status ≡ Status.Done) ⊎ (result.status ≡ Status.WriteFault)
        → ReadsAll (map string_bytes words.now) (H.told shelf.old) (H.told shelf.new) }
    ensures read_fault { (file : _) → result.status ≡ Status.ReadFault file
        → EndsAt (map string_bytes words.now) (H.told shelf.old) (H.told shelf.new) (FileFault.Failed file)
        × Rose (H.faults shelf.old) (H.faults shelf.new) }
    ensures refused { (file : _) (line : _) (cause : _) → result.status ≡ Status.Refused file line cause
        → EndsAt (map string_bytes words.now) (H.told shelf.old) (H.told shelf.new)
        (FileFault.Refused file line cause) }

    // The first bytes of the output were taken, up to the failed write.
    ensures write_fault { result.status ≡ Status.WriteFault
        → IsCutOff (map string_bytes words.now) (H.told shelf.old) (K.taken out.old) (K.taken out.new)
        result.journal result.taken
        × Rose (K.faults out.old) (K.faults out.new) }

    // Where a session was stopped the output is written all the same; want of memory elsewhere writes nothing.
    ensures no_memory { result.status ≡ Status.NoMemory
        → HasStopped (map string_bytes words.now) (H.told shelf.old) (K.taken out.old) (K.taken out.new)
        result.journal result.taken
        ⊎ ((out.new ≡ out.old) × (result.taken ≡ 0)) }

    // Where the shelf tells its files, each cause has its status, want of memory aside.
    ensures exact { (files : _) (status : _) → H.told shelf.old ≡ Some files
        → CausesStatus (map string_bytes words.now) (Some files) status
        → (result.status ≡ status) ⊎ (result.status ≡ Status.NoMemory) }

    // Files that are accepted lead to an output that is written whole, but for want of memory or a fault of the sink.
    ensures complete { (files : _) (request : _) (inputs : _) → H.told shelf.old ≡ Some files
        → AreAccepted (map string_bytes words.now) (Some files) request inputs
        → ¬ Rose (K.faults out.old) (K.faults out.new)
        → (result.status ≡ Status.Done) ⊎ (result.status ≡ Status.NoMemory) }

    // Before a session began, nothing is written.
    ensures unwritten { BeginsNone result.status → (out.new ≡ out.old) × (result.taken ≡ 0) × (result.journal ≡ []) }

    // At every status, also where the output of sessions that ran isn't written for want of memory.
    ensures journal { (result.journal ≡ []) ⊎ IsJournal (map string_bytes words.now) (H.told shelf.old) result.journal }
{
    recipes_are_right();
    ranges_cover();
    prints_are_founded();
    let request = match request_of(alloc, words) {
        Ok(Some(request)) => request,
        Ok(None) => return unbegun(alloc, Status::Usage),
        Err(NoMemory) => return unbegun(alloc, Status::NoMemory),
    };
    let inputs = match read_all(alloc, &request, shelf) {
        Ok(inputs) => inputs,
        Err(fault) => return unbegun(alloc, status_of(fault)),
    };
    let capacity = request.cache();
    match run_sessions::<Brand>(alloc, inputs, capacity, request.turns(), Blank::new(1)) {
        Ok(run) => write_run(out, run),
        Err(NoMemory) => unbegun(alloc, Status::NoMemory),
    }
}
