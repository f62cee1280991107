ghost use Rattle.std.specs.Prelude.{◌≡◌, ◌≢◌, ℕ, ◌<◌, ◌≤◌, ◌+◌, List, [], ◌∷◌, length, map, option_map, position, is_some, bytes_eq, vec_len, vec_capacity, IfOk, OnOk, OnErr, MatchOption};
ghost use Rattle.std.specs.Option.{ForSome};
ghost use Rattle.cg_marginal.specs.Marginal.{pairs_of};
ghost use Rattle.cg_sharing.specs.Command as spec;
ghost use Rattle.cg_sharing.specs.Versions.{State, head_of};
ghost use Rattle.cg_sharing.specs.Journal.{Act};
ghost use Rattle.cg_sharing.specs.Pieces as piece;
ghost use Rattle.cg_sharing.specs.Pieces.{Print, Piece, prints_in};
ghost use Rattle.cg_sharing.specs.Course.{Place, act_of, with_piece, with_grid, grid_of, print_piece, model_piece, done_at, with_base, bases_after, answered, IsFit};
ghost use Rattle.cg_script.specs.Command.{command_in};
ghost use Rattle.cg_book.specs.Plain as book;
ghost use Rattle.cg_session.specs.Standing.{base_in, IsSpare};
ghost use Rattle.cg_book.specs.Plain.{state_of, IsOfVersions};
ghost use Rattle.cg_book.specs.Replies.{question_in};
ghost use Rattle.cg_session.specs.Port.{Seen, Carries};

use crate::cover::curve_number;
use crate::search::event_in;
use crate::transcript::Transcript;
use cg_book::{Question, Reply};
use cg_cache::Ticket;
use cg_curve::Curves;
use cg_marginal::Marginal;
use cg_message::Message;
use cg_model::{Grid, ModelTree, Name};
use cg_num::{NoMemory, Year};
use cg_report::{SessionCause, grid_line, marginal_lines, model_lines, ranges_lines, work_line};
use cg_script::Command;
use cg_table::Steps;
use cg_up::evaluate;
use std::alloc::Global;
use std::sync::Arc;
use std::sync::ledger::Ledger;

/// The version that a session is at.
#[derive(Drop)]
pub(crate) struct Version {
    pub number: u32,
    pub tree: Arc<ModelTree>,
}

/// The version that a session last opened or committed by a name.
#[derive(Drop)]
pub(crate) struct Base {
    pub name: Name,
    pub version: u32,
}

// The marginal of an event: of the model in this version, on this grid.
#[derive(Drop)]
struct Evaluated {
    version: u32,
    grid: Grid,
    marginal: Marginal,
}

/// What a session has written, and what it is at.
#[derive(Drop)]
pub(crate) struct Standing {
    pub transcript: Transcript,
    pub version: Option<Version>,
    pub grid: Option<Grid>,
    pub bases: Vec<Base>,
}

fn place_of(bases: &[Base], name: &Name) -> Option<usize>
    ensures { result ≡ position (λ base. bytes_eq name.now base.name) bases.now }
{
    bases
        .iter()
        .position(|base| name.text() == base.name.text())
}

fn base_of(bases: &[Base], name: &Name) -> Option<u32>
    ensures { result ≡ head_of name.now (map base_in bases.now) }
{
    match place_of(bases, name) {
        Some(place) => Some(bases[place].version),
        None => None,
    }
}

fn set_base(bases: &mut Vec<Base>, name: Name, version: u32)
    requires { vec_len bases.old < vec_capacity bases.old }
    ensures { map base_in bases.new.items ≡ with_base name version (map base_in bases.old.items) }
{
    match place_of(bases, &name) {
        Some(place) => bases[place].version = version,
        None => bases.push_reserved(Base { name, version }),
    }
}

// Only an open and a commit, which have a spare name, set a base.
fn note_base(bases: &mut Vec<Base>, spare: Option<Name>, version: u32)
    requires { vec_len bases.old < vec_capacity bases.old }
    ensures { (command : spec.Command) → IsSpare command spare
        → map base_in bases.new.items ≡ bases_after command version (map base_in bases.old.items) }
{
    if let Some(name) = spare {
        set_base(bases, name, version);
    }
}

/// A copy of the name of an open or a commit.
pub(crate) fn spare_of(alloc: Global, command: &Command) -> Result<Option<Name>, NoMemory>
    ensures { IfOk result (λ spare. IsSpare (command_in command.now) spare) }
{
    match command {
        Command::Open(name) => Ok(Some(name.copy(alloc)?)),
        Command::Commit(name) => Ok(Some(name.copy(alloc)?)),
        _ => Ok(None),
    }
}

impl Standing {
    ghost use Rattle.cg_session.specs.Calibration.{calibration_of};
    ghost use Rattle.cg_session.specs.Standing.{Shows, HasText, IsOutcome};
    ghost use Rattle.cg_session.specs.Steps.{ticks_in, prints_at};
    ghost use Rattle.cg_session.specs.Transcript.{HasRoom};

    /// The act of a command, if it makes one here.
    pub fn question(&self, alloc: Global, command: &Command) -> Result<Option<Question>, NoMemory>
        ensures { IfOk result (λ question. (place : Place) → Shows self.now place
            → option_map question_in question ≡ act_of place (command_in command.now)) }
    {
        match command {
            Command::Grid(_, _) | Command::Print(_) | Command::Ranges(_) => Ok(None),
            Command::Model | Command::Work => Ok(None),
            Command::Open(name) => Ok(Some(Question::Head(name.copy(alloc)?))),
            Command::Take(version) => Ok(Some(Question::Take(*version))),
            Command::Undo => match &self.version {
                Some(at) => Ok(Some(Question::Undo(at.number))),
                None => Ok(None),
            },
            Command::Change(edit) => match &self.version {
                Some(at) => Ok(Some(Question::Change(at.number, edit.copy(alloc)?))),
                None => Ok(None),
            },
            Command::Commit(name) => match &self.version {
                Some(at) => {
                    let base = base_of(&self.bases, name);
                    Ok(Some(Question::Commit(name.copy(alloc)?, base, at.number)))
                }
                None => Ok(None),
            },
        }
    }

    /// Makes room for an answer. All else stays.
    pub fn make_room(&mut self) -> Result<(), NoMemory>
        ensures text { self.new.transcript.bytes.items ≡ self.old.transcript.bytes.items }
        ensures version { self.new.version ≡ self.old.version }
        ensures grid { self.new.grid ≡ self.old.grid }
        ensures bases { self.new.bases.items ≡ self.old.bases.items }
        ensures line { OnOk result (HasRoom self.new.transcript 64) }
        ensures base { OnOk result (vec_len self.new.bases < vec_capacity self.new.bases) }
    {
        self.transcript.make_room()?;
        self.bases.reserve(1)?;
        Ok(())
    }

    /// Does a command that makes no act. Without memory all stays.
    pub fn run<L: Ledger>(
        &mut self,
        alloc: Global,
        line: u32,
        command: &Command,
        curves: &Curves,
        steps: &mut Steps<L>,
    ) -> Result<(), NoMemory>
        requires ready { IsFit (command_in command.now) }
        ensures ok { OnOk result ((state : State) (place : Place) → HasText state self.old.version
            → Shows self.old place
            → Shows self.new (done_at (calibration_of curves.now) state line (command_in command.now) place)) }
        ensures ticks { (state : State) (place : Place) → HasText state self.old.version → Shows self.old place
            → steps.new ≤ steps.old
            + ticks_in (prints_at (calibration_of curves.now) state line (command_in command.now)
            place.version place.grid) }
        ensures err { OnErr result ((place : Place) → Shows self.old place → Shows self.new place) }
        ensures version { self.new.version ≡ self.old.version }
    {
        self.transcript.make_room()?;
        match command {
            Command::Grid(older, younger) => self.set_grid(alloc, line, *older, *younger),
            Command::Print(name) => self.print(alloc, line, name, curves, steps),
            Command::Ranges(name) => self.tell_ranges(alloc, line, name, curves, steps),
            Command::Model => self.tell_model(alloc, line),
            Command::Work => self.tell_work(alloc),
            _ => {
                self.transcript.refuse(line, &SessionCause::NotOpen);
                Ok(())
            }
        }
    }

    fn set_grid(
        &mut self,
        alloc: Global,
        line: u32,
        older: Year,
        younger: Year,
    ) -> Result<(), NoMemory>
        requires { HasRoom self.old.transcript 64 }
        ensures ok { OnOk result ((place : Place) → Shows self.old place
            → Shows self.new (with_grid line (grid_of older younger) place)) }
        ensures err { OnErr result ((place : Place) → Shows self.old place → Shows self.new place) }
        ensures version { self.new.version ≡ self.old.version }
    {
        match Grid::new(older, younger) {
            Ok(grid) => {
                let mut text = Vec::new(alloc);
                grid_line(alloc, &grid, &mut text)?;
                self.transcript.append(&text)?;
                self.grid = Some(grid);
            }
            Err(limit) => {
                let cause = SessionCause::GridLimit(limit.cells);
                self.transcript.refuse(line, &cause);
            }
        }
        Ok(())
    }

    // The marginal of the event of a name, of the session's version and on its grid, or why there is none.
    fn evaluate<L: Ledger>(
        &self,
        alloc: Global,
        name: &Name,
        curves: &Curves,
        steps: &mut Steps<L>,
    ) -> Result<Result<Evaluated, SessionCause>, NoMemory>
        requires { name.now ≢ [] }
        ensures ok { IfOk result (λ outcome. (state : State) (place : Place) → HasText state self.now.version
            → Shows self.now place
            → IsOutcome (calibration_of curves.now) state place name.now outcome) }
        ensures full { IfOk result (λ outcome. IfOk outcome (λ evaluated.
            ForSome (pairs_of evaluated.marginal) (λ pairs. length pairs ≡ evaluated.grid.cells))) }
        ensures ticks { (way : Print → Piece) (line : ℕ) (state : State) (place : Place)
            → ((print : Print) → prints_in (way print) ≡ print ∷ [])
            → HasText state self.now.version → Shows self.now place
            → steps.new ≤ steps.old + ticks_in (prints_in
            (print_piece way (calibration_of curves.now) state line name.now place.version place.grid)) }
    {
        let Some(version) = &self.version else {
            return Ok(Err(SessionCause::NotOpen));
        };
        let Some(grid) = &self.grid else {
            return Ok(Err(SessionCause::NoGrid));
        };
        let tree = &version.tree;
        match event_in(tree, name, grid, curves) {
            Ok(event) => {
                let curve = curve_number(curves, tree.curve());
                let marginal = evaluate(alloc, tree, event, grid, curves, curve, steps)?;
                Ok(Ok(Evaluated {
                    version: version.number,
                    grid: *grid,
                    marginal,
                }))
            }
            Err(cause) => Ok(Err(cause)),
        }
    }

    // The marginal of an event, by its pairs.
    fn print<L: Ledger>(
        &mut self,
        alloc: Global,
        line: u32,
        name: &Name,
        curves: &Curves,
        steps: &mut Steps<L>,
    ) -> Result<(), NoMemory>
        requires room { HasRoom self.old.transcript 64 }
        requires named { name.now ≢ [] }
        ensures ok { OnOk result ((state : State) (place : Place) → HasText state self.old.version
            → Shows self.old place
            → Shows self.new (done_at (calibration_of curves.now) state line (spec.Print name.now) place)) }
        ensures ticks { (state : State) (place : Place) → HasText state self.old.version → Shows self.old place
            → steps.new ≤ steps.old
            + ticks_in (prints_at (calibration_of curves.now) state line (spec.Print name.now)
            place.version place.grid) }
        ensures err { OnErr result ((place : Place) → Shows self.old place → Shows self.new place) }
        ensures version { self.new.version ≡ self.old.version }
    {
        match self.evaluate(alloc, name, curves, steps)? {
            Ok(found) => {
                let mut text = Vec::new(alloc);
                marginal_lines(
                    alloc,
                    &found.grid,
                    name,
                    found.version,
                    &found.marginal,
                    &mut text,
                )?;
                self.transcript.append(&text)?;
            }
            Err(cause) => self.transcript.refuse(line, &cause),
        }
        Ok(())
    }

    // The same by its ranges.
    fn tell_ranges<L: Ledger>(
        &mut self,
        alloc: Global,
        line: u32,
        name: &Name,
        curves: &Curves,
        steps: &mut Steps<L>,
    ) -> Result<(), NoMemory>
        requires room { HasRoom self.old.transcript 64 }
        requires named { name.now ≢ [] }
        ensures ok { OnOk result ((state : State) (place : Place) → HasText state self.old.version
            → Shows self.old place
            → Shows self.new (done_at (calibration_of curves.now) state line (spec.Ranges name.now) place)) }
        ensures ticks { (state : State) (place : Place) → HasText state self.old.version → Shows self.old place
            → steps.new ≤ steps.old
            + ticks_in (prints_at (calibration_of curves.now) state line (spec.Ranges name.now)
            place.version place.grid) }
        ensures err { OnErr result ((place : Place) → Shows self.old place → Shows self.new place) }
        ensures version { self.new.version ≡ self.old.version }
    {
        match self.evaluate(alloc, name, curves, steps)? {
            Ok(found) => {
                let mut text = Vec::new(alloc);
                ranges_lines(
                    alloc,
                    &found.grid,
                    name,
                    found.version,
                    &found.marginal,
                    &mut text,
                )?;
                self.transcript.append(&text)?;
            }
            Err(cause) => self.transcript.refuse(line, &cause),
        }
        Ok(())
    }

    // The text of the version's model.
    fn tell_model(&mut self, alloc: Global, line: u32) -> Result<(), NoMemory>
        requires { HasRoom self.old.transcript 64 }
        ensures ok { OnOk result ((state : State) (place : Place) → HasText state self.old.version
            → Shows self.old place
            → Shows self.new (with_piece (model_piece state line place.version) place)) }
        ensures err { OnErr result ((place : Place) → Shows self.old place → Shows self.new place) }
        ensures version { self.new.version ≡ self.old.version }
    {
        match &self.version {
            Some(version) => {
                let mut text = Vec::new(alloc);
                model_lines(alloc, version.number, &version.tree, &mut text)?;
                self.transcript.append(&text)?;
            }
            None => self.transcript.refuse(line, &SessionCause::NotOpen),
        }
        Ok(())
    }

    // The counts of the session's claims.
    fn tell_work(&mut self, alloc: Global) -> Result<(), NoMemory>
        ensures ok { OnOk result ((place : Place) → Shows self.old place
            → Shows self.new (with_piece piece.Work place)) }
        ensures err { OnErr result ((place : Place) → Shows self.old place → Shows self.new place) }
        ensures version { self.new.version ≡ self.old.version }
    {
        let mut text = Vec::new(alloc);
        work_line(&mut text)?;
        self.transcript.append(&text)
    }

    /// Takes the answer to a command's act, and says whether there was one: want of memory is none, and then all
    /// stays. Takes no memory.
    pub fn answer(&mut self, line: u32, spare: Option<Name>, reply: Reply<Message>) -> bool
        requires told { IsOfVersions reply }
        requires line { HasRoom self.old.transcript 64 }
        requires base { vec_len self.old.bases < vec_capacity self.old.bases }
        ensures came { result ≡ is_some (book.answered reply) }
        ensures place { (place : Place) → Shows self.old place
            → MatchOption (book.answered reply) (Shows self.new place)
            (λ a. (command : spec.Command) → IsSpare command spare
            → Shows self.new (answered (record { number = line; command = command }) a place)) }
        ensures version { (seen : Seen) (seat : ℕ) (act : Act) → HasText (state_of seen) self.old.version
            → Carries seen seat act reply
            → HasText (state_of seen) self.new.version }
    {
        match reply {
            Reply::At(number, tree) => {
                note_base(&mut self.bases, spare, number);
                self.version = Some(Version { number, tree });
                self.transcript.tell(b"at v", number);
            }
            Reply::Made(number, tree) => {
                self.version = Some(Version { number, tree });
                self.transcript.tell(b"made v", number);
            }
            Reply::Committed(number) => {
                note_base(&mut self.bases, spare, number);
                self.transcript.tell(b"committed v", number);
            }
            Reply::NoModel => self.transcript.refuse(line, &SessionCause::NoModel),
            Reply::NoVersion(count) => self
                .transcript
                .refuse(line, &SessionCause::NoVersion(count)),
            Reply::NoParent => self.transcript.refuse(line, &SessionCause::NoParent),
            Reply::Refused(fault) => {
                let Some(cause) = SessionCause::of_fault(fault) else {
                    return false;
                };
                self.transcript.refuse(line, &cause);
            }
            Reply::Moved(head) => self.transcript.refuse(line, &SessionCause::Moved(head)),
            Reply::NoMemory => return false,
            Reply::Mine(ticket) => {
                let Ticket { .. } = ticket;
                unreachable!()
            }
            Reply::Hit(_) | Reply::Busy(_) | Reply::NoRoom => unreachable!(),
            Reply::Published | Reply::Returned => unreachable!(),
        }
        true
    }
}
