ghost use Rattle.std.specs.Prelude.{◌≡◌, ◌+◌, ◌≤◌, ◌<◌, ◌^◌, [], Some, IfOk};
ghost use Rattle.std.specs.Arc.{arc_value};
ghost use Rattle.cg_cache.specs.Deeds.{Claim, Publish, GiveBack, Published, Returned};
ghost use Rattle.cg_sharing.specs.Versions.{count_of};
ghost use Rattle.cg_sharing.specs.Journal.{Do, Told, shared_of, May, IsLegal};
ghost use Rattle.cg_book.specs.Plain.{shared_in, answer_in, asked, answered, Steps, Brings, Carries, IsTold, IsOfVersions, Suits};
ghost use Rattle.cg_book.specs.Replies.{question_in};
ghost use Rattle.cg_book.specs.Replay.{open_after};

use crate::event::{Event, Reply};
use crate::journal::{Act, Answer, Entry, Journal};
use crate::question::Question;
use crate::reply::reply_to_claim;
use cg_cache::{Cache, Payload, Ticket};
use cg_code::Code;
use cg_num::NoMemory;
use cg_versions::{StartModels, Versions};
use std::alloc::Global;
use std::marker::Model;
use std::snapshot::Snapshot;
use std::sync::Arc;

/// Versions of models, a cache of payloads, and the journal of all acts.
///
/// The journal has room for the entries that close the open claims, which are at most `claims`.
#[derive(Drop)]
pub struct Book<P: Payload> {
    versions: Versions,
    cache: Cache<P>,
    claims: usize,
    journal: Vec<Entry>,
    start: Snapshot<Versions>,
    capacity: Snapshot<u16>,
}

impl<P: Payload> Model for Book<P> {
    ghost use Rattle.std.specs.Prelude.{map, vec_len, vec_capacity};
    ghost use Rattle.cg_cache.specs.Deeds.{empty_of};
    ghost use Rattle.cg_cache.specs.Slots.{cached_of};
    ghost use Rattle.cg_book.specs.Plain.{Seen, entry_in};
    ghost use Rattle.cg_book.specs.Replay.{IsReplay, HasRoom};

    ghost Value = { Seen P.Origin };

    ghost use Rattle.std.specs.Coded.{codes};
    ghost use Rattle.cg_model.specs.Stored.{coded_trees};
    ghost use Rattle.cg_book.specs.Stored.{coded_tree};

    ghost coded = { Prim.hlevel (codes, coded_tree, coded_trees) };

    ghost view = { λ b. record {
      start = record { state = b.start.value; cached = empty_of b.capacity.value };
      journal = map entry_in b.journal.items;
      origin = b.cache.origin;
    } };

    ghost invariant = { λ b. IsReplay (record { state = b.start.value; cached = empty_of b.capacity.value })
        (record { state = b.versions; cached = cached_of b.cache }) (map entry_in b.journal.items)
        × HasRoom (cached_of b.cache).claimed b.claims (vec_len b.journal) (vec_capacity b.journal) };
}

impl<P: Payload> Book<P> {
    /// A book that begins with these models, a cache for so many payloads of one origin and claims together, and
    /// without an entry.
    pub fn new(
        alloc: Global,
        models: StartModels,
        capacity: u16,
        origin: Arc<P::Origin>,
    ) -> Result<Book<P>, NoMemory>
        requires { capacity ≤ 256 }
        ensures { IfOk result (λ book.
            book ≡ record { start = shared_of models capacity; journal = []; origin = arc_value origin }) }
    {
        let versions = Versions::new(alloc, models)?;
        let cache = Cache::with_capacity(alloc, capacity, origin)?;
        let start = Snapshot::of(&versions);
        let capacity = Snapshot::of(&capacity);
        Ok(Book {
            versions,
            cache,
            claims: 0,
            journal: Vec::new(alloc),
            start,
            capacity,
        })
    }

    /// One act of a seat: the reply that the versions and the cache give now, and one entry at the end of the journal.
    /// Want of memory leaves all as it was, without an entry. Each version that an act names is known, but for `Take`,
    /// the values that a change brings are in their ranges, and a ticket is the seat's own. `Publish` and `GiveBack`
    /// take no memory.
    pub fn apply(&mut self, alloc: Global, seat: u32, event: Event<P>) -> Reply<P>
        requires may { May (shared_in self.old) seat (asked event) }
        requires offered { Brings P.code_of P.origin_of self.old seat event }
        ensures step { Steps self.old seat (asked event) (answered result) self.new }
        ensures carries { Carries P.code_of P.origin_of self.new seat (asked event) result }
        ensures told { IsTold result }
        ensures suits { Suits event result }
    {
        match event {
            Event::Head(name) => self.ask(alloc, seat, Question::Head(name)),
            Event::Take(version) => self.ask(alloc, seat, Question::Take(version)),
            Event::Undo(version) => self.ask(alloc, seat, Question::Undo(version)),
            Event::Change(version, edit) => self.ask(alloc, seat, Question::Change(version, edit)),
            Event::Commit(name, base, version) => {
                self.ask(alloc, seat, Question::Commit(name, base, version))
            }
            Event::Claim(code) => self.claim(seat, code),
            Event::Publish(ticket, payload) => {
                self.publish(seat, ticket, payload);
                Reply::Published
            }
            Event::GiveBack(ticket) => {
                self.give_back(seat, ticket);
                Reply::Returned
            }
        }
    }

    // Asks the versions.
    fn ask(&mut self, alloc: Global, seat: u32, question: Question) -> Reply<P>
        requires { May (shared_in self.old) seat (question_in question) }
        ensures step { Steps self.old seat (question_in question) (answered result) self.new }
        ensures carries { Carries P.code_of P.origin_of self.new seat (question_in question) result }
        ensures told { IsTold result }
        ensures versions { IsOfVersions result }
    {
        let Ok(()) = self.journal.reserve(1 + self.claims) else {
            return Reply::NoMemory;
        };
        let reply = question.reply(alloc, &mut self.versions);
        let Some(answer) = Answer::of(&reply) else {
            return reply;
        };
        let act = Act::of(question);
        self.journal.push_reserved(Entry { seat, act, answer });
        reply
    }

    // Claims a code, with room for the claim's entry and for the one that closes it.
    fn claim(&mut self, seat: u32, code: Arc<Code>) -> Reply<P>
        ensures step { Steps self.old seat (Do (Claim (arc_value code))) (answered result) self.new }
        ensures carries { Carries P.code_of P.origin_of self.new seat (Do (Claim (arc_value code))) result }
        ensures told { IsTold result }
    {
        let Ok(()) = self.journal.reserve(2 + self.claims) else {
            return Reply::NoMemory;
        };
        let Ok(noted) = Arc::try_clone(&code) else {
            return Reply::NoMemory;
        };
        let reply = reply_to_claim(self.cache.claim(seat, code));
        let Some(answer) = Answer::of(&reply) else {
            return reply;
        };
        self.claims = open_after(self.claims, answer);
        let act = Act::Claim(noted);
        self.journal.push_reserved(Entry { seat, act, answer });
        reply
    }

    // Keeps the payload of a claim. Takes no memory.
    fn publish(&mut self, seat: u32, ticket: Ticket, payload: Arc<P>)
        requires may { May (shared_in self.old) seat (Do (Publish (arc_value ticket.code))) }
        requires offered { Brings P.code_of P.origin_of self.old seat (Event.Publish ticket payload) }
        ensures { Steps self.old seat (Do (Publish (arc_value ticket.code))) (Some (Told Published)) self.new }
    {
        let code = self.cache.publish(ticket, payload);
        self.claims -= 1;
        self.journal.push_reserved(Entry {
            seat,
            act: Act::Publish(code),
            answer: Answer::Published,
        });
    }

    // Frees a claim. Takes no memory.
    fn give_back(&mut self, seat: u32, ticket: Ticket)
        requires may { May (shared_in self.old) seat (Do (GiveBack (arc_value ticket.code))) }
        requires offered { ticket.seat ≡ seat }
        ensures { Steps self.old seat (Do (GiveBack (arc_value ticket.code))) (Some (Told Returned)) self.new }
    {
        let code = self.cache.give_back(ticket);
        self.claims -= 1;
        self.journal.push_reserved(Entry {
            seat,
            act: Act::GiveBack(code),
            answer: Answer::Returned,
        });
    }

    /// How many versions there are. Takes no memory.
    pub fn count(&self) -> u32
        ensures { result ≡ count_of (shared_in self.now).state }
    {
        self.versions.count()
    }

    /// That the journal is legal. Takes no memory.
    pub fn is_legal(&self)
        ensures { IsLegal self.now.start self.now.journal }
    {
        let _ = &self.journal;
    }

    /// The journal of all acts.
    pub fn into_journal(self) -> Journal
        ensures journal { result ≡ self.journal }
        ensures legal { IsLegal self.start result }
    {
        Journal::of(self.journal)
    }
}

// how many claims are open after the answer to one
fn open_after(claims: usize, answer: Answer) -> usize
    requires { claims + 1 < 2 ^ 64 }
    ensures { result ≡ open_after claims (answer_in answer) }
{
    match answer {
        Answer::Mine => claims + 1,
        _ => claims,
    }
}
