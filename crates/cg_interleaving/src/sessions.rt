ghost use Rattle.std.specs.Prelude.{◌≡◌, ◌≢◌, ◌+◌, ◌<◌, ◌≤◌, ◌∷◌, [], suc, ℕ, List, length, map, replicate, vec_capacity, false, All, IfOk};
ghost use Rattle.std.specs.List.{list_any};
ghost use Rattle.std.specs.Arc.{arc_value};
ghost use Rattle.cg_curve.specs.Curves.{NamedCurve};
ghost use Rattle.cg_sharing.specs.Versions.{StartModel};
ghost use Rattle.cg_sharing.specs.Journal.{shared_of, IsLegal};
ghost use Rattle.cg_sharing.specs.Course.{Calibration, AreFit};
ghost use Rattle.cg_sharing.specs.Interleaving.{World, begun, last_turns};
ghost use Rattle.cg_session.specs.Calibration.{calibration_of};
ghost use Rattle.cg_session.specs.Session.{script_of, is_stopped};
ghost use Rattle.cg_interleaving.specs.Run.{written_in};
ghost use Rattle.cg_interleaving.specs.Taking.{AreAt, CanGoOn, AreIn, HaveTaken, lines_at, HasEndAt, Advances, AreTexts};

use crate::run::Run;
use cg_book::Book;
use cg_curve::Curves;
use cg_message::Message;
use cg_num::NoMemory;
use cg_script::Script;
use cg_session::{BookPort, Progress, Session};
use cg_table::Steps;
use cg_versions::StartModels;
use std::alloc::Global;
use std::sync::Arc;
use std::sync::ledger::Ledger;

/// Sessions over one book, and whether want of memory has stopped one. The seat of a session is its place and one more.
#[derive(Drop)]
pub(crate) struct Sessions {
    pub book: Book<Message>,
    pub list: Vec<Session>,
    pub stopped: bool,
}

// Sessions of these scripts, numbered from 1, before their first commands.
fn begin(alloc: Global, scripts: Vec<Script>) -> Result<Vec<Session>, NoMemory>
    requires ready { All AreFit scripts.items }
    requires few { length scripts.items ≤ 8 }
    ensures at { IfOk result (λ list. (calibration : Calibration) (models : List StartModel) (capacity : ℕ)
        (curves : List NamedCurve)
        → AreAt calibration record { start = shared_of models capacity; journal = []; origin = curves } 1 list.items) }
    ensures read { IfOk result (λ list. map script_of list.items ≡ scripts.items) }
    ensures going { IfOk result (λ list. list_any is_stopped list.items ≡ false) }
{
    let mut list = Vec::new(alloc);
    for script in scripts {
        let number = list.len() as u32 + 1;
        list.push(Session::new(alloc, number, script)?)?;
    }
    Ok(list)
}

impl Sessions {
    /// Sessions of these scripts over a book of these models, with a cache of this capacity, before their first commands.
    pub fn new(
        alloc: Global,
        models: StartModels,
        capacity: u16,
        scripts: Vec<Script>,
        curves: &Arc<Curves>,
    ) -> Result<Sessions, NoMemory>
        requires ready { All AreFit scripts.items }
        requires capacity { capacity ≤ 256 }
        requires few { length scripts.items ≤ 8 }
        ensures can { IfOk result (λ all. (calibration : Calibration) → CanGoOn calibration all) }
        ensures here { IfOk result (λ all. (calibration : Calibration)
            → AreIn calibration (begun calibration models capacity scripts.items) all) }
        ensures read { IfOk result (λ all. map script_of all.list.items ≡ scripts.items) }
        ensures start { IfOk result (λ all. all.book.start ≡ shared_of models capacity) }
    {
        let origin = Arc::try_clone(curves)?;
        let list = begin(alloc, scripts)?;
        let book = Book::new(alloc, models, capacity, origin)?;
        Ok(Sessions {
            book,
            list,
            stopped: false,
        })
    }

    // Lets the session at a place advance once, and tells whether it made an act.
    fn advance<L: Ledger>(
        &mut self,
        alloc: Global,
        place: usize,
        curves: &Arc<Curves>,
        steps: &mut Steps<L>,
    ) -> bool
        requires can { CanGoOn (calibration_of (arc_value curves.now)) self.old }
        requires within { place < length self.old.list.items }
        ensures { Advances (calibration_of (arc_value curves.now)) place result self.old self.new }
    {
        let mut port = BookPort {
            book: &mut self.book,
            seat: place as u32 + 1,
        };
        match self.list[place].advance(alloc, &mut port, curves, steps) {
            Progress::Moved => true,
            Progress::Ended => false,
            Progress::Stopped => {
                self.stopped = true;
                false
            }
        }
    }

    // Lets the session of a number advance once, if there is one.
    fn turn<L: Ledger>(
        &mut self,
        alloc: Global,
        number: usize,
        curves: &Arc<Curves>,
        steps: &mut Steps<L>,
    )
        requires { CanGoOn (calibration_of (arc_value curves.now)) self.old }
        ensures can { CanGoOn (calibration_of (arc_value curves.now)) self.new }
        ensures same { map script_of self.new.list.items ≡ map script_of self.old.list.items }
        ensures start { self.new.book.start ≡ self.old.book.start }
        ensures taken { (world : World) → AreIn (calibration_of (arc_value curves.now)) world self.old
            → HaveTaken (calibration_of (arc_value curves.now)) (number ∷ []) world self.new }
    {
        if 1 <= number && number <= self.list.len() {
            self.advance(alloc, number - 1, curves, steps);
        }
    }

    /// Lets sessions advance in the order of these numbers. A number that is no session's does nothing.
    pub fn take_turns<L: Ledger>(
        &mut self,
        alloc: Global,
        turns: &[u32],
        curves: &Arc<Curves>,
        steps: &mut Steps<L>,
    )
        requires { CanGoOn (calibration_of (arc_value curves.now)) self.old }
        ensures can { CanGoOn (calibration_of (arc_value curves.now)) self.new }
        ensures same { map script_of self.new.list.items ≡ map script_of self.old.list.items }
        ensures start { self.new.book.start ≡ self.old.book.start }
        ensures taken { (world : World) → AreIn (calibration_of (arc_value curves.now)) world self.old
            → HaveTaken (calibration_of (arc_value curves.now)) turns.now world self.new }
    {
        for number in turns {
            self.turn(alloc, *number as usize, curves, steps);
        }
    }

    // Lets the session at a place advance to its end.
    fn finish<L: Ledger>(
        &mut self,
        alloc: Global,
        place: usize,
        curves: &Arc<Curves>,
        steps: &mut Steps<L>,
    )
        requires can { CanGoOn (calibration_of (arc_value curves.now)) self.old }
        requires within { place < length self.old.list.items }
        ensures can { CanGoOn (calibration_of (arc_value curves.now)) self.new }
        ensures same { map script_of self.new.list.items ≡ map script_of self.old.list.items }
        ensures start { self.new.book.start ≡ self.old.book.start }
        ensures taken { (world : World) → AreIn (calibration_of (arc_value curves.now)) world self.old
            → HaveTaken (calibration_of (arc_value curves.now)) (replicate (lines_at place world + 1) (suc place)) world self.new }
        ensures others { (other : ℕ) → other ≢ place → HasEndAt (calibration_of (arc_value curves.now)) other self.old
            → HasEndAt (calibration_of (arc_value curves.now)) other self.new }
        ensures over { HasEndAt (calibration_of (arc_value curves.now)) place self.new }
    {
        while self.advance(alloc, place, curves, steps) {}
    }

    /// Lets all sessions advance to their ends, in their order.
    pub fn finish_all<L: Ledger>(
        &mut self,
        alloc: Global,
        curves: &Arc<Curves>,
        steps: &mut Steps<L>,
    )
        requires { CanGoOn (calibration_of (arc_value curves.now)) self.old }
        ensures can { CanGoOn (calibration_of (arc_value curves.now)) self.new }
        ensures same { map script_of self.new.list.items ≡ map script_of self.old.list.items }
        ensures start { self.new.book.start ≡ self.old.book.start }
        ensures taken { (world : World) → AreIn (calibration_of (arc_value curves.now)) world self.old
            → HaveTaken (calibration_of (arc_value curves.now)) (last_turns 1 world.places) world self.new }
        ensures over { (place : ℕ) → place < length self.old.list.items
            → HasEndAt (calibration_of (arc_value curves.now)) place self.new }
    {
        for place in 0..self.list.len() {
            self.finish(alloc, place, curves, steps);
        }
    }

    /// The journal, and what the sessions wrote. Takes no memory.
    pub fn close(self, mut transcripts: Vec<Vec<u8>>) -> Run
        requires none { transcripts.items ≡ [] }
        requires room { length self.list.items ≤ vec_capacity transcripts }
        ensures journal { result.journal ≡ self.book.journal }
        ensures legal { IsLegal self.book.start result.journal }
        ensures stopped { result.stopped ≡ self.stopped }
        ensures written { AreTexts self.list.items (written_in result) }
    {
        let Sessions {
            book,
            list,
            stopped,
        } = self;
        for session in list {
            transcripts.push_reserved(session.into_transcript());
        }
        Run {
            journal: book.into_journal(),
            transcripts,
            stopped,
        }
    }
}
