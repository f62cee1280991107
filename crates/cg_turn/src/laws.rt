//! What holds of every lock.
ghost use Rattle.cg_turn.specs.Rule.{IsExclusive};

use crate::lock::{Turn, TurnSeat};
use crate::logged::Logged;

fn is_send<T: Send>() {}

fn is_sync<T: Sync>() {}

/// Threads share a lock, and a seat is lent to a thread, where the value may go from one thread to another.
pub fn threads_share_locks<V: Logged + Send>() {
    is_send::<Turn<V>>();
    is_sync::<Turn<V>>();
    is_send::<TurnSeat<V>>();
}

/// The rule that each step of each seat keeps doesn't let two seats have the turn at once.
pub fn at_most_one_seat_has_the_turn<V: Logged>()
    ensures { IsExclusive V.ground_of V.entries V.seat_of }
{}
