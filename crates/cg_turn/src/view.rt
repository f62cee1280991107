use std::collections::LinkedList;

/// Where a seat stands. No value of it is made.
pub enum Phase {
    /// It has no ticket.
    Idle,
    /// It has a ticket.
    Waiting,
    /// Its ticket is served.
    Due,
    /// It has the slot, and has seen the whole log.
    Fresh,
    /// The length of the log that it leaves is stored.
    Noted,
    /// It has ended.
    Spent,
}

/// What a seat knows: the log that it has seen, and the entries that it made. No value of it is made.
///
/// The first seat also counts the seats that were made, and keeps what those knew that have ended, the last first.
pub struct View<G, E> {
    pub phase: Phase,
    pub ticket: u64,
    pub number: u64,
    /// `None` where the seat has ended.
    pub seen_ground: Option<G>,
    pub seen: LinkedList<E>,
    pub mine: LinkedList<E>,
    pub count: u64,
    pub gone: LinkedList<Ended<G, E>>,
}

/// What a seat knew when it ended. No value of it is made.
pub struct Ended<G, E> {
    pub number: u64,
    pub seen_ground: Option<G>,
    pub seen: LinkedList<E>,
    pub mine: LinkedList<E>,
}
