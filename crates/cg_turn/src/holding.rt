//! Taking the value and giving it on.
ghost use Rattle.std.specs.Prelude.{◌≡◌, ◌++◌, length, drop, Some};
ghost use Rattle.cg_turn.specs.Logs.{by, StartsWith, Extends};
ghost use Rattle.cg_turn.specs.Seats.{number_of, ground_of, seen_of, made_of, lock_of, IsOf, IsIdle, HasTurn, StaysAt};

use crate::lock::{Turn, TurnSeat};
use crate::logged::Logged;
use crate::steps::{Draw, LoadLength, Look, Pass, StoreLength};
use std::sync::Wait;
use std::thread;

impl<V: Logged> TurnSeat<V> {
    /// The seat's number, from 1. Takes no memory.
    pub fn number(&self) -> u32
        ensures { result ≡ number_of self.now }
    {
        self.number
    }
}

impl<V: Logged> Turn<V> {
    /// Waits for the seat's turn, and takes the value, which no other seat has until this one gives it. The value has
    /// the ground of the one that the lock was made with. Its log begins with all that the seat had seen, the entries
    /// after that are other seats', and the seat's own in it are those that it made. Takes no memory.
    pub fn take<R: Wait>(&self, rt: &R, seat: &mut TurnSeat<V>) -> V
        requires own { IsOf (lock_of self.now) seat.old }
        requires idle { IsIdle seat.old }
        ensures turn { HasTurn seat.new }
        ensures stays { StaysAt seat.old seat.new }
        ensures same_ground { ground_of seat.new ≡ Some (V.ground_of result) }
        ensures log { seen_of seat.new ≡ V.entries result }
        ensures seen { StartsWith (V.entries result) (seen_of seat.old) }
        ensures others { by V.seat_of (number_of seat.old) (seen_of seat.old) ≡ made_of seat.old }
        ensures made { by V.seat_of (number_of seat.old) (V.entries result) ≡ made_of seat.old }
        ensures same { made_of seat.new ≡ made_of seat.old }
    {
        let shared = &self.table.shared;
        let ticket = shared.fetch_add::<Draw>(&mut seat.seat, 0, 1);
        for _ in rt.forever() {
            if shared.load::<Look>(&mut seat.seat, 1) == ticket {
                shared.load::<LoadLength>(&mut seat.seat, 2);
                return shared.exchange(&mut seat.seat, 0, None).unwrap();
            }
            thread::yield_now();
        }
        unreachable!()
    }

    /// Gives the value on to the next ticket. Its ground is as it was taken, and its log is the one taken with new
    /// entries of this seat after it, which the seat has made from now on. Takes no memory.
    pub fn give(&self, seat: &mut TurnSeat<V>, value: V)
        requires own { IsOf (lock_of self.now) seat.old }
        requires turn { HasTurn seat.old }
        requires same_ground { ground_of seat.old ≡ Some (V.ground_of value) }
        requires log { Extends V.seat_of (number_of seat.old) (seen_of seat.old) (V.entries value) }
        ensures idle { IsIdle seat.new }
        ensures stays { StaysAt seat.old seat.new }
        ensures seen { seen_of seat.new ≡ V.entries value }
        ensures made { made_of seat.new ≡ made_of seat.old ++ drop (length (seen_of seat.old)) (V.entries value) }
    {
        let shared = &self.table.shared;
        let length = value.length();
        let before = shared.exchange(&mut seat.seat, 0, Some(value));
        let None = before else { unreachable!() };
        shared.store::<StoreLength>(&mut seat.seat, 2, length);
        shared.fetch_add::<Pass>(&mut seat.seat, 1, 1);
    }
}
