//! A turn lock: the value that seats share, one at a time, in the order of the tickets that they draw.
//!
//! The value keeps a log, which only grows, each entry by the seat that has the value. Word 0 counts the tickets drawn,
//! word 1 is the ticket served, word 2 is the length of the log, and one slot holds the value. Between any two steps
//! the tickets held are the numbers from word 1 up to word 0, without that one, a seat each, and only the seat whose
//! ticket is served may have the value. What a seat has seen is a beginning of the log, and its entries in the log are
//! those that it made.
#![tactic(auto)]

mod closing;
mod holding;
mod laws;
mod lock;
mod logged;
mod opening;
mod steps;
mod view;

pub use laws::{at_most_one_seat_has_the_turn, threads_share_locks};
pub use lock::{Turn, TurnSeat};
pub use logged::Logged;
