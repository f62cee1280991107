//! Making a lock with its seats.
ghost use Rattle.std.specs.Prelude.{◌≡◌, ◌≤◌, ◌+◌, [], IfOk, length, vec_capacity, Some};
ghost use Rattle.cg_turn.specs.Views.{split_left};
ghost use Rattle.cg_turn.specs.Seats.{lock_of, IsSeat, IsFirst, AreFrom, IsNew, AreNew, AreSeats};
ghost use Rattle.cg_turn.specs.declared.view.Phase.TheVariants.{Idle};

use crate::lock::{Turn, TurnSeat};
use crate::logged::Logged;
use crate::steps::Seats;
use crate::view::View;
use atomic_table::{Refused, Seat, Table};
use cg_num::NoMemory;
use std::alloc::Global;
use std::snapshot::Snapshot;

impl<V: Logged + Drop> Turn<V> {
    /// A lock of the value, whose log has no entry, and its seats, 1 to 8. The k-th has the number k, from 1. None has
    /// the turn, each has seen this log, and none has made an entry.
    pub fn new(alloc: Global, value: V, seats: u32) -> Result<(Turn<V>, Vec<TurnSeat<V>>), NoMemory>
        requires seats { (1 ≤ seats) × (seats ≤ 8) }
        requires log { V.entries value ≡ [] }
        ensures length { IfOk result (λ pair. length pair.1.items ≡ seats) }
        ensures seats { IfOk result (λ pair. AreSeats (lock_of pair.0) pair.1.items) }
        ensures fresh { IfOk result (λ pair. AreNew (Some (V.ground_of value)) pair.1.items) }
    {
        let key = Snapshot::of(&value);
        let mut slots = Vec::with_capacity(alloc, 1)?;
        slots.push_reserved(Some(value));
        let mut list = Vec::with_capacity(alloc, seats as usize)?;
        match Table::new(alloc, &[0, 0, 0], slots, &key) {
            Ok((table, first)) => {
                let turn = Turn { table };
                let first = turn.seat_others(first, seats, &mut list);
                let Ok(()) = list.insert(0, first) else {
                    unreachable!()
                };
                Ok((turn, list))
            }
            Err(Refused { slots: _ }) => Err(NoMemory),
        }
    }
}

impl<V: Logged> Turn<V> {
    // Makes the seats after the first, and gives the first back.
    fn seat_others(
        &self,
        mut first: Seat<Option<V>, View<V::Ground, V::Entry>>,
        seats: u32,
        list: &mut Vec<TurnSeat<V>>,
    ) -> TurnSeat<V>
        requires own { first.table_id ≡ lock_of self.now }
        requires idle { (first.me.0.phase ≡ Idle) × (first.me.1 ≡ []) }
        requires counts { (first.me.0.number ≡ 1) × (first.me.0.count ≡ 1) × (first.me.0.gone ≡ []) }
        requires fresh { (first.me.0.seen ≡ []) × (first.me.0.mine ≡ []) }
        requires seats { (1 ≤ seats) × (seats ≤ 8) }
        requires room { (list.old.items ≡ []) × (seats ≤ vec_capacity list.old) }
        ensures first { IsFirst (lock_of self.now) seats result }
        ensures new { IsNew first.me.0.seen_ground result }
        ensures others { AreFrom (lock_of self.now) 2 list.new.items }
        ensures fresh { AreNew first.me.0.seen_ground list.new.items }
        ensures length { length list.new.items + 1 ≡ seats }
        ensures room { seats ≤ vec_capacity list.new }
    {
        for count in 1..seats {
            let next = self.seat_next(&mut first, count + 1);
            list.push_reserved(next);
        }
        TurnSeat {
            number: 1,
            seat: first,
        }
    }

    // One seat more.
    fn seat_next(
        &self,
        first: &mut Seat<Option<V>, View<V::Ground, V::Entry>>,
        number: u32,
    ) -> TurnSeat<V>
        requires own { first.old.table_id ≡ lock_of self.now }
        requires idle { (first.old.me.0.phase ≡ Idle) × (first.old.me.1 ≡ []) }
        requires counts { (first.old.me.0.number ≡ 1) × (first.old.me.0.count + 1 ≡ number) × (number ≤ 8) }
        requires seen { first.old.me.0.seen ≡ [] }
        ensures own { first.new.table_id ≡ first.old.table_id }
        ensures first { first.new.me ≡ (split_left first.old.me.0, first.old.me.1) }
        ensures next { IsSeat first.old.table_id number result }
        ensures new { IsNew first.old.me.0.seen_ground result }
    {
        let seat = self.table.shared.split_seat::<Seats>(first);
        TurnSeat { number, seat }
    }
}
