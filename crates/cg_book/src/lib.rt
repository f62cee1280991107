//! The book that all sessions share: versions of models, a cache of payloads, and the journal of all acts.
//!
//! An act is answered by the versions and the cache as they are, and is one entry more in the journal, refusals too. So
//! the journal is legal: each answer is the one that the start and the entries before it give. The journal has room for
//! the entry that closes each claim, so a claim can be closed without taking memory.
#![tactic(auto)]

mod book;
mod event;
mod journal;
mod question;
mod reply;

pub use book::Book;
pub use event::{Event, Reply};
pub use journal::{Act, Answer, Entry, Journal};
pub use question::Question;
