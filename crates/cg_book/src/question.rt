ghost use Rattle.std.specs.Prelude.{◌≡◌};
ghost use Rattle.cg_book.specs.Replies.{event_of};

use crate::event::Event;
use cg_edit::Edit;
use cg_model::Name;

/// What is asked of a book's versions alone. Versions are named by their numbers.
#[derive(Drop)]
pub enum Question {
    /// The version that a model's name stands for.
    Head(Name),
    /// A version.
    Take(u32),
    /// The parent of a version.
    Undo(u32),
    /// A further version, made from a version by a change.
    Change(u32, Edit),
    /// That a name stand for a version, where it stands for the base now.
    Commit(Name, Option<u32>, u32),
}

impl Question {
    /// The event that asks it. Takes no memory.
    pub fn event<P>(self) -> Event<P>
        ensures { result ≡ event_of self }
    {
        match self {
            Question::Head(name) => Event::Head(name),
            Question::Take(version) => Event::Take(version),
            Question::Undo(version) => Event::Undo(version),
            Question::Change(version, edit) => Event::Change(version, edit),
            Question::Commit(name, base, version) => Event::Commit(name, base, version),
        }
    }
}
