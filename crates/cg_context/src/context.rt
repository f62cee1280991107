ghost use Rattle.std.specs.Prelude.{◌≡◌, ◌*◌, ◌^◌, ◌<◌, ◌≤◌, ℕ, All, length};
ghost use Rattle.cg_enc.specs.Enclosure.{exact_zero, HasLoss, IsEnclosure, IsExponent};
ghost use Rattle.cg_table.specs.Live.{live_rows, padded};
ghost use Rattle.cg_table.specs.Table.{IsTable, entry, start, table_loss, table_reach};

use cg_enc::Enc;
use cg_table::Tri;
use std::marker::Model;

/// The coefficients with which the entries of an element's table enter the total, one for each two cells `a ≤ b` of a
/// grid. As of a table, the live rows alone are kept.
#[derive(Drop)]
pub struct Context {
    entries: Tri,
}

impl Model for Context {
    ghost use Rattle.cg_table.specs.Table.{Table};

    ghost Value = { Table };

    ghost view = { λ x. x.entries };
}

impl Context {
    /// The context of the entries of its first `rows` rows: row by row from the oldest cell, each with rising `b`. All
    /// others are zero. Takes no memory.
    pub fn of_rows(cells: usize, rows: usize, entries: Vec<Enc>) -> Context
        requires within { rows ≤ cells }
        requires few { cells < 2 ^ 33 }
        requires count { length entries.items ≡ start cells rows }
        requires near { All (λ e. IsExponent (2 ^ 60) e.exp) entries.items }
        ensures { result ≡ padded cells entries.items }
    {
        Context {
            entries: Tri::of_rows(cells, rows, entries),
        }
    }

    /// The number of cells.
    #[inline]
    pub fn cells(&self) -> usize
        ensures value { result ≡ self.now.cells }
        ensures table { IsTable self.now }
    {
        self.entries.cells()
    }

    /// The number of rows up to the last that has a coefficient other than zero.
    #[inline]
    pub fn live(&self) -> usize
        ensures value { result ≡ live_rows self.now }
        ensures within { result ≤ self.now.cells }
        ensures dead { (a b : ℕ) → result ≤ a → a ≤ b → b < self.now.cells →
            entry self.now a b ≡ exact_zero }
        ensures table { IsTable self.now }
    {
        self.entries.live()
    }

    /// The coefficient of the entry of two cells.
    #[inline]
    pub fn get(&self, a: usize, b: usize) -> Enc
        requires order { a ≤ b }
        requires within { b < self.now.cells }
        ensures value { result ≡ entry self.now a b }
        ensures valid { IsEnclosure result }
        ensures near { IsExponent (2 ^ 60) result.exp }
        ensures table { IsTable self.now }
    {
        self.entries.get(a, b)
    }

    /// The greatest loss of a coefficient: the least number that is a loss of each.
    #[inline]
    pub fn loss(&self) -> u64
        ensures value { result ≡ table_loss self.now }
        ensures each { All (λ e. HasLoss e result) self.now.entries }
        ensures least { (k : ℕ) → All (λ e. HasLoss e k) self.now.entries → result ≤ k }
    {
        self.entries.loss()
    }

    /// The least number of times 2^31 within which each exponent lies, on both sides of 0.
    #[inline]
    pub fn reach(&self) -> u32
        ensures value { result ≡ table_reach self.now }
        ensures each { All (λ e. IsExponent (result * 2 ^ 31) e.exp) self.now.entries }
        ensures least { (m : ℕ) → All (λ e. IsExponent (m * 2 ^ 31) e.exp) self.now.entries → result ≤ m }
    {
        self.entries.reach()
    }

    /// The coefficients as a table.
    #[inline]
    pub fn table(&self) -> &Tri
        ensures { result.now ≡ self.now }
    {
        &self.entries
    }
}
