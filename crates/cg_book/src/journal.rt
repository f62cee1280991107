ghost use Rattle.std.specs.Prelude.{◌≡◌, [], ◌∷◌, ◌++◌, map, option_map, OnOk, OnErr};
ghost use Rattle.cg_book.specs.Plain.{act_in, answer_in, answered, entry_in};
ghost use Rattle.cg_book.specs.Replies.{question_in};

use crate::event::Reply;
use crate::question::Question;
use cg_code::Code;
use cg_edit::{Edit, EditFault};
use cg_model::Name;
use cg_num::NoMemory;
use std::alloc::Global;
use std::marker::Model;
use std::sync::Arc;

/// What a session asks of the book.
#[derive(Drop)]
pub enum Act {
    /// The version that a model's name stands for.
    Head(Name),
    /// A version.
    Take(u32),
    /// The parent of a version.
    Undo(u32),
    /// A further version, made from a version by a change.
    Change(u32, Edit),
    /// That a name stand for a version, where it stands for the base.
    Commit(Name, Option<u32>, u32),
    /// The payload of a code, or the ticket to make it.
    Claim(Arc<Code>),
    /// That the payload of a code be kept, which the seat has claimed.
    Publish(Arc<Code>),
    /// That the claim of a code be free again.
    GiveBack(Arc<Code>),
}

impl Act {
    // the act of a question
    pub(crate) fn of(question: Question) -> Act
        ensures { act_in result ≡ question_in question }
    {
        match question {
            Question::Head(name) => Act::Head(name),
            Question::Take(version) => Act::Take(version),
            Question::Undo(version) => Act::Undo(version),
            Question::Change(version, edit) => Act::Change(version, edit),
            Question::Commit(name, base, version) => Act::Commit(name, base, version),
        }
    }
}

/// A reply in plain form: versions are named by their numbers.
#[derive(Clone, Copy, Debug, PartialEq, Eq)]
pub enum Answer {
    /// A version.
    At(u32),
    /// A further version.
    Made(u32),
    /// The name stands for this version.
    Committed(u32),
    /// The code's payload.
    Hit,
    /// The ticket.
    Mine,
    /// This seat has claimed the code.
    Busy(u32),
    /// As many codes are claimed as the cache has room for.
    NoRoom,
    /// The payload is kept.
    Published,
    /// The claim is free again.
    Returned,
    /// No head has the name.
    NoModel,
    /// There are only so many versions.
    NoVersion(u32),
    /// The version has no parent.
    NoParent,
    /// The change was refused; it is never for want of memory.
    Refused(EditFault),
    /// The name stands for this version, which isn't the base.
    Moved(u32),
}

impl Answer {
    // the answer of a reply; none for want of memory
    pub(crate) fn of<P>(reply: &Reply<P>) -> Option<Answer>
        ensures { option_map answer_in result ≡ answered reply.now }
    {
        match reply {
            Reply::At(version, _) => Some(Answer::At(*version)),
            Reply::Made(version, _) => Some(Answer::Made(*version)),
            Reply::Committed(version) => Some(Answer::Committed(*version)),
            Reply::Hit(_) => Some(Answer::Hit),
            Reply::Mine(_) => Some(Answer::Mine),
            Reply::Busy(owner) => Some(Answer::Busy(*owner)),
            Reply::NoRoom => Some(Answer::NoRoom),
            Reply::Published => Some(Answer::Published),
            Reply::Returned => Some(Answer::Returned),
            Reply::NoModel => Some(Answer::NoModel),
            Reply::NoVersion(count) => Some(Answer::NoVersion(*count)),
            Reply::NoParent => Some(Answer::NoParent),
            Reply::Refused(EditFault::NoMemory) | Reply::NoMemory => None,
            Reply::Refused(fault) => Some(Answer::Refused(*fault)),
            Reply::Moved(head) => Some(Answer::Moved(*head)),
        }
    }
}

/// What one session asked, and what the book answered. Seats are named by their numbers.
#[derive(Drop)]
pub struct Entry {
    /// The session's seat.
    pub seat: u32,
    /// What it asked.
    pub act: Act,
    /// What the book answered.
    pub answer: Answer,
}

/// All acts and answers of a book in their order.
#[derive(Drop)]
pub struct Journal {
    entries: Vec<Entry>,
}

impl Model for Journal {
    ghost use Rattle.std.specs.Prelude.{List, map};
    ghost use Rattle.cg_sharing.specs.Journal as meaning;
    ghost use Rattle.cg_book.specs.Plain.{entry_in};

    ghost Value = { List meaning.Entry };

    ghost use Rattle.std.specs.Coded.{codes};
    ghost use Rattle.cg_book.specs.Stored.{coded_tree};

    ghost coded = { Prim.hlevel (codes, coded_tree) };

    ghost view = { λ j. map entry_in j.entries.items };
}

impl Journal {
    /// No entry. It takes its memory from `alloc` as it grows.
    pub fn new(alloc: Global) -> Journal
        ensures { result ≡ [] }
    {
        Journal {
            entries: Vec::new(alloc),
        }
    }

    /// Appends an entry. Where it is refused for want of memory it is dropped, and the journal is as before.
    pub fn push(&mut self, entry: Entry) -> Result<(), NoMemory>
        ensures ok { OnOk result (self.new ≡ self.old ++ entry_in entry ∷ []) }
        ensures err { OnErr result (self.new ≡ self.old) }
    {
        self.entries.push(entry)?;
        Ok(())
    }

    pub(crate) fn of(entries: Vec<Entry>) -> Journal
        ensures { result ≡ map entry_in entries.items }
    {
        Journal { entries }
    }

    /// The entries, the first act first. Takes no memory.
    pub fn entries(&self) -> &[Entry]
        ensures { map entry_in result.now ≡ self.now }
    {
        &self.entries
    }
}
