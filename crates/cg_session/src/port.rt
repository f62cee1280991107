use cg_book::{Book, Event, Reply};
use cg_message::Message;
use std::alloc::Global;

/// The way to a book for one seat: an act, and its reply. A port tells its seat, and what this seat has seen of the
/// book: the versions and the cache at the start, the journal as it was at the seat's last act, and the curves that its
/// messages are made by.
pub trait Port {
    ghost use Rattle.std.specs.Prelude.{◌≡◌, ℕ};
    ghost use Rattle.cg_sharing.specs.Journal.{IsLegal, May};
    ghost use Rattle.cg_book.specs.Plain.{shared_in, asked, answered, Suits};
    ghost use Rattle.cg_session.specs.Port.{Seen, Brings, Carries, Grows};

    ghost seat: { Self → ℕ };

    ghost seen: { Self → Seen };

    // that no other seat makes entries
    ghost alone: { Self → Type 0 };

    // the name of the reference that it holds
    ghost lent: { Self → ℕ };

    /// One act. The reply is the answer of the seat's new entry, which stands behind those that other seats made
    /// meanwhile. Want of memory makes no entry, and a claim is closed whatever memory there is.
    fn event(&mut self, alloc: Global, event: Event<Message>) -> Reply<Message>
        requires legal { IsLegal (seen self.old).start (seen self.old).journal }
        requires may { May (shared_in (seen self.old)) (seat self.old) (asked event) }
        requires offered { Brings (seen self.old) (seat self.old) event }
        ensures lent { lent self.new ≡ lent self.old }
        ensures seat { seat self.new ≡ seat self.old }
        ensures alone { alone self.old → alone self.new }
        ensures legal { IsLegal (seen self.new).start (seen self.new).journal }
        ensures grows { Grows (seat self.old) (alone self.old) (asked event) (answered result)
            (seen self.old) (seen self.new) }
        ensures origin { (seen self.new).origin ≡ (seen self.old).origin }
        ensures carries { Carries (seen self.new) (seat self.old) (asked event) result }
        ensures suits { Suits event result };
}

/// The port of a seat that has the book to itself.
#[derive(Drop)]
pub struct BookPort<'a> {
    pub book: &'a mut Book<Message>,
    pub seat: u32,
}

impl Port for BookPort<'_> {
    ghost seat = { λ port. port.seat };

    ghost seen = { λ port. port.book.now };

    ghost alone = { λ _. Unit {0} };

    ghost lent = { λ port. port.book.ghost_name };

    fn event(&mut self, alloc: Global, event: Event<Message>) -> Reply<Message> {
        self.book.apply(alloc, self.seat, event)
    }
}
