//! Triangular tables, of which the live rows alone are kept.
ghost use Rattle.std.specs.Prelude.{◌≡◌, ◌+◌, ◌*◌, ◌^◌, ◌<◌, ◌≤◌, ℕ, All, IsFalse, length, slice_index_or};
ghost use Rattle.cg_enc.specs.Enclosure.{exact_zero, HasLoss, IsEnclosure, IsExponent};
ghost use Rattle.cg_table.specs.Live.{any_live, live_rows, padded};
ghost use Rattle.cg_table.specs.Table.{Table, IsTable, entry, place, start, table_loss, table_reach};

use crate::limits::{greater_loss, greater_reach};
use cg_enc::Enc;
use std::alloc::Global;
use std::marker::Model;

/// Enclosures, one for each two cells `a ≤ b` of a grid. Behind the last row that has an entry other than zero no row is
/// kept.
#[derive(Drop)]
pub struct Tri {
    cells: usize,
    live: usize,
    entries: Vec<Enc>,
    loss: u64,
    reach: u32,
}

impl Model for Tri {
    ghost use Rattle.std.specs.Prelude.{◌≡◌, length};
    ghost use Rattle.cg_table.specs.Live.{live_rows, padded};
    ghost use Rattle.cg_table.specs.Table.{Table, IsTable, start, table_loss, table_reach};

    ghost Value = { Table };

    ghost view = { λ t. padded t.cells t.entries.items };

    ghost invariant = { λ t. IsTable (padded t.cells t.entries.items)
        × (length t.entries.items ≡ start t.cells t.live)
        × (t.live ≡ live_rows (padded t.cells t.entries.items))
        × (t.loss ≡ table_loss (padded t.cells t.entries.items))
        × (t.reach ≡ table_reach (padded t.cells t.entries.items)) };
}

impl Tri {
    /// The table of these entries: row by row from the oldest cell, each with rising `b`. Takes no memory.
    pub fn of_entries(cells: usize, entries: Vec<Enc>) -> Tri
        requires count { 2 * length entries.items ≡ cells * (cells + 1) }
        requires near { All (λ e. IsExponent (2 ^ 60) e.exp) entries.items }
        ensures { result ≡ record { cells = cells; entries = entries.items } }
    {
        Tri::of_rows(cells, cells, entries)
    }

    /// The table of the entries of its first `rows` rows, as in `of_entries`: all others are zero. Takes no memory.
    pub fn of_rows(cells: usize, rows: usize, mut entries: Vec<Enc>) -> Tri
        requires within { rows ≤ cells }
        requires few { cells < 2 ^ 33 }
        requires count { length entries.items ≡ start cells rows }
        requires near { All (λ e. IsExponent (2 ^ 60) e.exp) entries.items }
        ensures { result ≡ padded cells entries.items }
    {
        let live = live_of(cells, rows, &entries);
        entries.truncate(start_of(cells, live, entries.len()));
        let mut loss: u64 = 0;
        let mut reach: u32 = 0;
        for e in &entries {
            loss = greater_loss(e, loss);
            reach = greater_reach(e, reach);
        }
        Tri {
            cells,
            live,
            entries,
            loss,
            reach,
        }
    }

    /// The number of cells.
    #[inline]
    pub fn cells(&self) -> usize
        ensures value { result ≡ self.now.cells }
        ensures table { IsTable self.now }
    {
        self.cells
    }

    /// The number of rows up to the last that has an entry other than zero.
    #[inline]
    pub fn live(&self) -> usize
        ensures value { result ≡ live_rows self.now }
        ensures within { result ≤ self.now.cells }
        ensures dead { (a b : ℕ) → result ≤ a → a ≤ b → b < self.now.cells →
            entry self.now a b ≡ exact_zero }
        ensures table { IsTable self.now }
    {
        self.live
    }

    /// The entry of two cells.
    #[inline]
    pub fn get(&self, a: usize, b: usize) -> Enc
        requires order { a ≤ b }
        requires within { b < self.now.cells }
        ensures value { result ≡ entry self.now a b }
        ensures valid { IsEnclosure result }
        ensures near { IsExponent (2 ^ 60) result.exp }
        ensures table { IsTable self.now }
    {
        if a >= self.live {
            return Enc::zero();
        }
        self.entries[place_of(self.cells, a, b, self.entries.len())]
    }

    /// The greatest loss of an entry: the least number that is a loss of each.
    #[inline]
    pub fn loss(&self) -> u64
        ensures value { result ≡ table_loss self.now }
        ensures each { All (λ e. HasLoss e result) self.now.entries }
        ensures least { (k : ℕ) → All (λ e. HasLoss e k) self.now.entries → result ≤ k }
    {
        self.loss
    }

    /// The least number of times 2^31 within which each exponent lies, on both sides of 0.
    #[inline]
    pub fn reach(&self) -> u32
        ensures value { result ≡ table_reach self.now }
        ensures each { All (λ e. IsExponent (result * 2 ^ 31) e.exp) self.now.entries }
        ensures least { (m : ℕ) → All (λ e. IsExponent (m * 2 ^ 31) e.exp) self.now.entries → result ≤ m }
    {
        self.reach
    }

    /// The entries of the live rows, row by row. All others are zero.
    #[inline]
    pub fn items(&self) -> &[Enc]
        ensures table { padded self.now.cells result.now ≡ self.now }
        ensures len { length result.now ≡ start self.now.cells (live_rows self.now) }
        ensures each { (a b : ℕ) → slice_index_or result.now (place self.now.cells a b) exact_zero
            ≡ entry self.now a b }
        ensures valid { IsTable self.now }
    {
        self.entries.as_slice()
    }

    /// What a call on the table takes its memory from.
    #[inline]
    pub fn allocator(&self) -> Global {
        *self.entries.allocator()
    }
}

// How many of the first rows, whose entries these are, there are up to the last that has one other than zero.
fn live_of(cells: usize, rows: usize, entries: &[Enc]) -> usize
    requires within { rows ≤ cells }
    requires count { length entries.now ≡ start cells rows }
    ensures value { result ≡ live_rows (padded cells entries.now) }
    ensures within { result ≤ rows }
    ensures zeros { (i : ℕ) → start cells result ≤ i → slice_index_or entries.now i exact_zero ≡ exact_zero }
{
    let mut begin = entries.len();
    for passed in 0..rows {
        let live = rows - passed;
        let end = begin;
        begin -= cells - (live - 1);
        if has_live(&entries[begin..end]) {
            return live;
        }
    }
    0
}

// Whether one of them isn't zero.
fn has_live(row: &[Enc]) -> bool
    ensures value { result ≡ any_live row.now }
    ensures zeros { IsFalse result → All (λ e. e ≡ exact_zero) row.now }
{
    for e in row {
        if !e.is_zero() {
            return true;
        }
    }
    false
}

// How many entries stand before row `a`: at most `len`.
#[inline]
pub(crate) fn start_of(cells: usize, a: usize, len: usize) -> usize
    requires within { a ≤ cells }
    requires len { start cells a ≤ len }
    ensures { result ≡ start cells a }
{
    ((a as u128 * (2 * cells as u128 + 1 - a as u128)) >> 1) as usize
}

/// Where the entry `(a, b)` stands among `len` entries that a table has row by row.
#[inline]
pub fn place_of(cells: usize, a: usize, b: usize, len: usize) -> usize
    requires order { a ≤ b }
    requires within { b < cells }
    requires len { place cells a b < len }
    ensures { result ≡ place cells a b }
{
    start_of(cells, a, len) + (b - a)
}
