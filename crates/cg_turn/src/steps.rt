//! The rule of the lock, and what each kind of step tells the seat that makes it. These types are for proofs alone.
use crate::logged::Logged;
use crate::view::View;
use atomic_table::{Join, Play, Split, TableRule};
use std::snapshot::Snapshot;

/// What holds between any two steps.
pub struct Law;

impl<V: Logged> TableRule<Option<V>, View<V::Ground, V::Entry>, Snapshot<V>> for Law {
    ghost use Rattle.cg_turn.specs.Views.{first_view};
    ghost use Rattle.cg_turn.specs.Rule.{Turned};

    ghost holds = { λ _. Turned V.ground_of V.entries V.seat_of };

    ghost first = { λ key. first_view (V.ground_of key.value) };
}

/// Draws a ticket.
pub struct Draw;

impl<V: Logged> Play<Option<V>, View<V::Ground, V::Entry>> for Draw {
    ghost use Rattle.cg_turn.specs.Steps.{Draws};

    ghost then = { Draws };
}

/// Looks at the ticket served.
pub struct Look;

impl<V: Logged> Play<Option<V>, View<V::Ground, V::Entry>> for Look {
    ghost use Rattle.cg_turn.specs.Steps.{Looks};

    ghost then = { Looks };
}

/// Loads the length of the log, and takes the slot.
pub struct LoadLength;

impl<V: Logged> Play<Option<V>, View<V::Ground, V::Entry>> for LoadLength {
    ghost use Rattle.cg_turn.specs.Steps.{LoadsLength};

    ghost then = { LoadsLength V.ground_of V.entries V.seat_of };
}

/// Stores the length of the log.
pub struct StoreLength;

impl<V: Logged> Play<Option<V>, View<V::Ground, V::Entry>> for StoreLength {
    ghost use Rattle.cg_turn.specs.Steps.{StoresLength};

    ghost then = { StoresLength V.entries };
}

/// Gives the slot, and passes the turn to the next ticket.
pub struct Pass;

impl<V: Logged> Play<Option<V>, View<V::Ground, V::Entry>> for Pass {
    ghost use Rattle.cg_turn.specs.Steps.{Passes};

    ghost then = { Passes };
}

/// Makes a seat of the first one, and ends a seat in it.
pub struct Seats;

impl<G, E> Split<View<G, E>> for Seats {
    ghost use Rattle.cg_turn.specs.Views.{split_left, split_right};

    ghost left = { split_left };

    ghost right = { split_right };
}

impl<G, E> Join<View<G, E>> for Seats {
    ghost use Rattle.cg_turn.specs.Views.{joined, spent};

    ghost both = { joined };

    ghost spent = { spent };
}
