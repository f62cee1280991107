use cg_cache::Ticket;
use cg_code::Code;
use cg_edit::{Edit, EditFault};
use cg_model::{ModelTree, Name};
use std::sync::Arc;

/// What a session asks of the book. Versions are named by their numbers.
///
/// An event may bring a ticket, which must be spent, so events have no `Drop`.
pub enum Event<P> {
    /// The version that a model's name stands for.
    Head(Name),
    /// A version.
    Take(u32),
    /// The parent of a version.
    Undo(u32),
    /// A further version, made from a version by a change.
    Change(u32, Edit),
    /// That a name stand for a version, where it stands for the base now.
    Commit(Name, Option<u32>, u32),
    /// The payload of a code, or the ticket to make it.
    Claim(Arc<Code>),
    /// That a payload be kept, which was made under a claim.
    Publish(Ticket, Arc<P>),
    /// That a claim be free again.
    GiveBack(Ticket),
}

/// What the book replies. A reply may hand out a ticket, which must be spent, so replies have no `Drop`.
pub enum Reply<P> {
    /// A version.
    At(u32, Arc<ModelTree>),
    /// A further version.
    Made(u32, Arc<ModelTree>),
    /// The name stands for this version now.
    Committed(u32),
    /// The code's payload.
    Hit(Arc<P>),
    /// The ticket: it's the seat's to make the payload.
    Mine(Ticket),
    /// This seat has claimed the code.
    Busy(u32),
    /// As many codes are claimed as the cache has room for.
    NoRoom,
    /// The payload is kept, and the claim is closed.
    Published,
    /// The claim is closed.
    Returned,
    /// No head has the name.
    NoModel,
    /// There are only so many versions.
    NoVersion(u32),
    /// The version has no parent.
    NoParent,
    /// The change was refused, and not for want of memory.
    Refused(EditFault),
    /// The name stands for this version, which isn't the base.
    Moved(u32),
    /// There was no memory for it: the book is as it was, and no entry was made.
    NoMemory,
}
