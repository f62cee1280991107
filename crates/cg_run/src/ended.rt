use cg_book::Journal;
use cg_report::Status;

/// A run's status, the journal of its sessions, and the number of bytes that the sink took.
#[derive(Drop)]
pub struct Ended {
    /// How it ended.
    pub status: Status,
    /// All events of the book that the sessions shared. Empty where no session began.
    pub journal: Journal,
    /// How many bytes of the output were taken.
    pub taken: u64,
}
