ghost use Rattle.std.specs.Prelude.{◌≡◌, ℕ, ◌<◌, ◌≤◌, ◌+◌, length, slice_get, Some, true, false, vec_len, vec_capacity, IfOk, OnOk, OnErr, MatchOption};
ghost use Rattle.cg_sharing.specs.Command as spec;
ghost use Rattle.cg_sharing.specs.Journal.{Act};
ghost use Rattle.cg_sharing.specs.Course.{Calibration, Place, answered, AreFit};
ghost use Rattle.cg_report.specs.Transcript.{text_of, transcript_of};
ghost use Rattle.cg_recipe.specs.Recipe.{recipe};
ghost use Rattle.cg_book.specs.Plain as book;
ghost use Rattle.cg_book.specs.Plain.{state_of, IsOfVersions};
ghost use Rattle.cg_session.specs.Port.{Seen, Carries};

use crate::port::Port;
use crate::standing::{Standing, spare_of};
use crate::transcript::Transcript;
use cg_book::{Question, Reply};
use cg_curve::Curves;
use cg_message::Message;
use cg_model::Name;
use cg_num::NoMemory;
use cg_script::Script;
use cg_table::Steps;
use std::alloc::Global;
use std::sync::ledger::Ledger;

/// How far a call of `advance` came.
#[derive(Clone, Copy, Debug, PartialEq, Eq)]
pub enum Progress {
    /// It made one act.
    Moved,
    /// The script is done. No act was made.
    Ended,
    /// Want of memory stopped the session. No act was made.
    Stopped,
}

// What is to be asked of the versions, with a spare name for the answer.
#[derive(Drop)]
pub(crate) struct Asked {
    pub question: Question,
    pub spare: Option<Name>,
}

/// A session: its number, which is that of its seat, its script, and how far it has come.
#[derive(Drop)]
pub struct Session {
    number: u32,
    script: Script,
    // how many lines are done
    done: usize,
    standing: Standing,
    stopped: bool,
}

impl Session {
    ghost use Rattle.cg_session.specs.Calibration.{calibration_of};
    ghost use Rattle.cg_session.specs.Standing.{Shows, HasText, IsSpare};
    ghost use Rattle.cg_session.specs.Steps.{Counts};
    ghost use Rattle.cg_session.specs.Transcript.{HasRoom};
    ghost use Rattle.cg_session.specs.Session.{seat_of, script_of, left_of, is_stopped, IsIn, StandsAt, IsFresh, IsAt, IsSame, IsPrepared, Came};

    /// A session before its first command.
    pub fn new(alloc: Global, number: u32, script: Script) -> Result<Session, NoMemory>
        requires { AreFit script }
        ensures at { IfOk result (λ session. (calibration : Calibration) (seen : Seen) → IsFresh number seen
            → IsAt calibration seen session) }
        ensures same { IfOk result (λ session. (seat_of session ≡ number) × (script_of session ≡ script)) }
        ensures going { IfOk result (λ session. is_stopped session ≡ false) }
    {
        let standing = Standing {
            transcript: Transcript::begin(alloc, number)?,
            version: None,
            grid: None,
            bases: Vec::new(alloc),
        };
        Ok(Session {
            number,
            script,
            done: 0,
            standing,
            stopped: false,
        })
    }

    // Does the commands up to the next act, and prepares that act, if there is one.
    fn prepare<L: Ledger>(
        &mut self,
        alloc: Global,
        curves: &Curves,
        steps: &mut Steps<L>,
    ) -> Result<Option<Asked>, NoMemory>
        requires ready { AreFit self.old.script }
        requires within { self.old.done ≤ length self.old.script }
        ensures same { IsSame self.old self.new }
        ensures at { (seen : Seen) → self.old.stopped ≡ false → IsAt (calibration_of curves.now) seen self.old
            → IsAt (calibration_of curves.now) seen self.new }
        ensures ticks { OnOk result ((seen : Seen) (place : Place) → self.old.stopped ≡ false
            → IsAt (calibration_of curves.now) seen self.old
            → StandsAt (calibration_of curves.now) seen self.old place
            → Counts (calibration_of curves.now) seen Progress.Ended steps.old steps.new place self.new) }
        ensures cut { OnErr result ((seen : Seen) (place : Place) → self.old.stopped ≡ false
            → IsAt (calibration_of curves.now) seen self.old
            → StandsAt (calibration_of curves.now) seen self.old place
            → Counts (calibration_of curves.now) seen Progress.Stopped steps.old steps.new place self.new) }
        ensures forward { self.old.done ≤ self.new.done }
        ensures unfinished { OnErr result (self.new.done < length self.new.script) }
        ensures next { IfOk result (λ asked. MatchOption asked
            (self.new.done ≡ length self.new.script) (λ next. IsPrepared next self.new)) }
    {
        while self.done < self.script.len() {
            let (line, command) = self.script.get(self.done);
            if let Some(question) = self.standing.question(alloc, command)? {
                let spare = spare_of(alloc, command)?;
                self.standing.make_room()?;
                return Ok(Some(Asked { question, spare }));
            }
            self.standing.run(alloc, line, command, curves, steps)?;
            self.done += 1;
        }
        Ok(None)
    }

    // Takes the answer to the act of the next line.
    fn settle(&mut self, spare: Option<Name>, reply: Reply<Message>) -> Progress
        requires told { IsOfVersions reply }
        requires within { self.old.done < length self.old.script }
        requires few { length self.old.script ≤ 1000 }
        requires room { HasRoom self.old.standing.transcript 64 }
        requires base { vec_len self.old.standing.bases < vec_capacity self.old.standing.bases }
        ensures same { (self.new.number ≡ self.old.number) × (self.new.script ≡ self.old.script) }
        ensures text { (seen : Seen) (seat : ℕ) (act : Act) → HasText (state_of seen) self.old.standing.version
            → Carries seen seat act reply → HasText (state_of seen) self.new.standing.version }
        ensures came { MatchOption (book.answered reply)
            ((result ≡ Progress.Stopped) × (self.new.stopped ≡ true) × (self.new.done ≡ self.old.done)
            × ((place : Place) → Shows self.old.standing place → Shows self.new.standing place))
            (λ a. (result ≡ Progress.Moved) × (self.new.stopped ≡ self.old.stopped)
            × (self.new.done ≡ self.old.done + 1)
            × ((line : spec.Line) → slice_get self.old.script self.old.done ≡ Some line → IsSpare line.command spare
            → (place : Place) → Shows self.old.standing place → Shows self.new.standing (answered line a place))) }
    {
        let (line, _) = self.script.get(self.done);
        if self.standing.answer(line, spare, reply) {
            self.done += 1;
            Progress::Moved
        } else {
            self.stopped = true;
            Progress::Stopped
        }
    }

    /// Goes on until one act is made, the script is done or want of memory has stopped the session. `Ended` and
    /// `Stopped` make no act, and repeat.
    ///
    /// A model's dates are read off the curve that it names, or the first where it names none. Each product of two
    /// enclosures in a marginal's tables is a step.
    pub fn advance<Q: Port, L: Ledger>(
        &mut self,
        alloc: Global,
        port: &mut Q,
        curves: &Curves,
        steps: &mut Steps<L>,
    ) -> Progress
        requires seat { Q.seat port.old ≡ seat_of self.old }
        requires at { IsAt (calibration_of curves.now) (Q.seen port.old) self.old }
        ensures same { (seat_of self.new ≡ seat_of self.old) × (script_of self.new ≡ script_of self.old) }
        ensures lent { Q.lent port.new ≡ Q.lent port.old }
        ensures seat { Q.seat port.new ≡ Q.seat port.old }
        ensures alone { Q.alone port.old → Q.alone port.new }
        ensures start { (Q.seen port.new).start ≡ (Q.seen port.old).start }
        ensures origin { (Q.seen port.new).origin ≡ (Q.seen port.old).origin }
        ensures at { IsAt (calibration_of curves.now) (Q.seen port.new) self.new }
        ensures came { Came (calibration_of curves.now) result (Q.alone port.old) (Q.seen port.old) (Q.seen port.new)
            self.old self.new }
        ensures ticks { (place : Place) → StandsAt (calibration_of curves.now) (Q.seen port.old) self.old place
            → Counts (calibration_of curves.now) (Q.seen port.new) result steps.old steps.new place self.new }
        ensures idle { is_stopped self.old ≡ true → steps.new ≡ steps.old }
        ensures repeats { is_stopped self.old ≡ true → (result ≡ Progress.Stopped) × (self.new ≡ self.old) }
    {
        if self.stopped {
            return Progress::Stopped;
        }
        match self.prepare(alloc, curves, steps) {
            Ok(Some(Asked { question, spare })) => {
                let event = question.event();
                let reply = port.event(alloc, event);
                self.settle(spare, reply)
            }
            Ok(None) => Progress::Ended,
            Err(NoMemory) => {
                self.stopped = true;
                Progress::Stopped
            }
        }
    }

    /// What has been written so far, without a last line.
    pub fn transcript(&self) -> &[u8]
        ensures { (place : Place) → IsIn self.now place → result.now ≡ text_of recipe place.written }
    {
        &self.standing.transcript.bytes
    }

    /// The transcript, with its last line. It is whole after `Ended` and `Stopped`. Takes no memory.
    pub fn into_transcript(self) -> Vec<u8>
        ensures { (place : Place) → IsIn self place → result.items ≡ transcript_of recipe (seat_of self) place }
    {
        let Session {
            number,
            standing,
            stopped,
            ..
        } = self;
        let Standing { transcript, .. } = standing;
        transcript.close(stopped, number)
    }
}
