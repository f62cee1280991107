//! The transcripts are written, one after the other.

ghost use Rattle.std.specs.Prelude.{◌≡◌, ◌≢◌, ◌⊎◌, ◌<◌, ◌≤◌, ◌^◌, ◌↔◌, [], length, map, take, true, false, IsTrue};
ghost use Rattle.std.specs.List.{concat};
ghost use Rattle.cg_io.specs.Causes.{Rose};
ghost use Rattle.cg_io.specs.Sink.{Takes};
ghost use Rattle.cg_interleaving.specs.Run.{written_in};
ghost use Rattle.cg_run.specs.Run.{TakesAll};
ghost use Rattle.cg_run.specs.Status.{status_after};

use crate::ended::Ended;
use cg_interleaving::Run;
use cg_io::{Sink, Written, write_whole};
use cg_report::Status;

/// Whether `usize` holds the number of bytes of all texts.
fn fits_usize(texts: &[Vec<u8>]) -> bool
    ensures { IsTrue result ↔ (length (concat (map (λ text. text.items) texts.now)) < 2 ^ 64) }
{
    let mut total = 0usize;
    for text in texts {
        match total.checked_add(text.len()) {
            Some(more) => total = more,
            None => return false,
        }
    }
    true
}

/// Writes the texts, one after the other, until all of them are taken or a write fails. Takes no memory.
fn write_texts<K: Sink>(out: &mut K, texts: &[Vec<u8>]) -> Written
    requires { length (concat (map (λ text. text.items) texts.now)) < 2 ^ 64 }
    ensures failed { IsTrue result.failed ↔ (result.taken < length (concat (map (λ text. text.items) texts.now))) }
    ensures within { result.taken ≤ length (concat (map (λ text. text.items) texts.now)) }
    ensures taken { Takes (K.taken out.old) (K.taken out.new)
        (take result.taken (concat (map (λ text. text.items) texts.now))) }
    ensures later { K.faults out.old ≤ K.faults out.new }
    ensures cause { IsTrue result.failed → Rose (K.faults out.old) (K.faults out.new) }
{
    let mut taken = 0;
    for text in texts {
        let written = write_whole(out, text);
        taken += written.taken;
        if written.failed {
            return Written {
                taken,
                failed: true,
            };
        }
    }
    Written {
        taken,
        failed: false,
    }
}

fn status_after(failed: bool, stopped: bool) -> Status
    ensures { result ≡ status_after failed stopped }
{
    if failed {
        Status::WriteFault
    } else if stopped {
        Status::NoMemory
    } else {
        Status::Done
    }
}

/// The end of sessions that ran, once their transcripts are written. An output past `usize` isn't written, as where
/// there is no memory.
pub fn write_run<K: Sink>(out: &mut K, run: Run) -> Ended
    ensures journal { result.journal ≡ run.journal }
    ensures done { result.status ≡ Status.Done → (run.stopped ≡ false)
        × TakesAll (K.taken out.old) (K.taken out.new) (concat (written_in run)) result.taken }
    ensures cut_off { result.status ≡ Status.WriteFault → (result.taken < length (concat (written_in run)))
        × Takes (K.taken out.old) (K.taken out.new) (take result.taken (concat (written_in run)))
        × Rose (K.faults out.old) (K.faults out.new) }
    ensures stopped { result.status ≡ Status.NoMemory →
        ((run.stopped ≡ true) × TakesAll (K.taken out.old) (K.taken out.new) (concat (written_in run)) result.taken)
        ⊎ ((out.new ≡ out.old) × (result.taken ≡ 0)) }
    ensures either { (result.status ≡ Status.Done) ⊎ (result.status ≡ Status.WriteFault)
        ⊎ (result.status ≡ Status.NoMemory) }
{
    let Run {
        journal,
        transcripts,
        stopped,
    } = run;
    if !fits_usize(&transcripts) {
        return Ended {
            status: Status::NoMemory,
            journal,
            taken: 0,
        };
    }
    let written = write_texts(out, &transcripts);
    Ended {
        status: status_after(written.failed, stopped),
        journal,
        taken: written.taken as u64,
    }
}
