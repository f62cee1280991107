//! Taking the value out of a lock for good.
ghost use Rattle.std.specs.Prelude.{◌≡◌, ◌+◌, length, map};
ghost use Rattle.cg_turn.specs.Logs.{HasNoOther};
ghost use Rattle.cg_turn.specs.Rule.{HasAll};
ghost use Rattle.cg_turn.specs.Seats.{number_of, ground_of, seen_of, made_of, end_of, lock_of};
ghost use Rattle.cg_turn.specs.Seats.{IsOf, IsIdle, IsFirst, AreFrom, AreSeats, HasEach};

use crate::lock::{Turn, TurnSeat};
use crate::logged::Logged;
use crate::steps::Seats;

impl<V: Logged> Turn<V> {
    /// The value, where all seats of the lock come back and none has the turn. Its ground is that of the value that the
    /// lock was made with, its log begins with what each seat has seen, and has of each seat just the entries that it
    /// made, each once and in their order, and no other entry. Takes no memory.
    pub fn close(self, mut seats: Vec<TurnSeat<V>>) -> V
        requires { AreSeats (lock_of self) seats.items }
        ensures each { HasEach V.seat_of (V.ground_of result) (V.entries result) seats.items }
        ensures no_other { HasNoOther V.seat_of (length seats.items) (V.entries result) }
    {
        let mut first = seats.remove(0);
        self.join_others(&mut first, seats);
        self.close_with(first)
    }

    // Ends the seats after the first, from the last on.
    fn join_others(&self, first: &mut TurnSeat<V>, mut others: Vec<TurnSeat<V>>)
        requires first { IsFirst (lock_of self.now) (length others.items + 1) first.old }
        requires others { AreFrom (lock_of self.now) 2 others.items }
        ensures own { IsOf (lock_of self.now) first.new }
        ensures idle { IsIdle first.new }
        ensures number { number_of first.new ≡ 1 }
        ensures same_ground { ground_of first.new ≡ ground_of first.old }
        ensures seen { seen_of first.new ≡ seen_of first.old }
        ensures made { made_of first.new ≡ made_of first.old }
        ensures seats { first.new.seat.me.0.count ≡ length others.items + 1 }
        ensures gone { first.new.seat.me.0.gone ≡ map end_of others.items }
    {
        while let Some(other) = others.pop() {
            let TurnSeat { number: _, seat } = other;
            self.table.shared.join_seat::<Seats>(&mut first.seat, seat);
        }
    }

    // The value, where all seats but the first have ended.
    fn close_with(self, first: TurnSeat<V>) -> V
        requires own { IsOf (lock_of self) first }
        requires idle { IsIdle first }
        requires number { number_of first ≡ 1 }
        requires all { length first.seat.me.0.gone + 1 ≡ first.seat.me.0.count }
        ensures { HasAll V.seat_of (V.ground_of result) (V.entries result) first.seat.me.0 }
    {
        let TurnSeat { number: _, seat } = first;
        let Turn { table } = self;
        let mut closed = table.close_with(seat);
        let value = closed.take(0).unwrap();
        closed.free();
        value
    }
}
