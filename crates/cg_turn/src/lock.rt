ghost use Rattle.std.specs.Prelude.{◌≡◌};

use crate::logged::Logged;
use crate::steps::Law;
use crate::view::View;
use atomic_table::{Seat, Table};
use std::alloc::Global;
use std::snapshot::Snapshot;

/// The lock of a value. Threads share it, each with a seat of its own.
#[derive(Drop)]
pub struct Turn<V: Logged> {
    pub(crate) table: Table<Option<V>, View<V::Ground, V::Entry>, Snapshot<V>, Law, Global>,
    pub(crate) ghost sized: { (table.shared.table_id.words ≡ 3) × (table.shared.table_id.slots ≡ 1) },
}

/// A seat at a lock. What it knows of the log stays true whatever the others do: the log begins with all that this seat
/// has seen, and has of it just the entries that it made.
#[derive(Drop)]
pub struct TurnSeat<V: Logged> {
    pub(crate) number: u32,
    pub(crate) seat: Seat<Option<V>, View<V::Ground, V::Entry>>,
    pub(crate) ghost numbered: { seat.me.0.number ≡ number },
}
