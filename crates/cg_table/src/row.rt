ghost use Rattle.std.specs.Prelude.{◌≡◌, ◌+◌, ◌*◌, ◌^◌, ◌<◌, ◌≤◌, ℕ, [], ◌∷◌, ◌++◌, length, All};
ghost use Rattle.std.specs.Prelude.{Some, OnOk, OnErr, slice_get, slice_index_or};
ghost use Rattle.cg_enc.specs.Enclosure.{exact_zero, HasLoss, IsEnclosure, IsExponent};

use crate::limits::{greater_loss, greater_reach};
use cg_enc::Enc;
use cg_num::NoMemory;
use std::alloc::Global;
use std::marker::Model;

/// Enclosures, one for each cell of a grid.
#[derive(Drop)]
pub struct Row {
    entries: Vec<Enc>,
    loss: u64,
    reach: u32,
}

impl Model for Row {
    ghost use Rattle.std.specs.Prelude.{◌≡◌, List};
    ghost use Rattle.cg_enc.specs.Enclosure.{Enclosure};
    ghost use Rattle.cg_table.specs.Losses.{greatest_loss, greatest_reach};
    ghost use Rattle.cg_table.specs.Row.{AreEntries};

    ghost Value = { List Enclosure };

    ghost view = { λ row. row.entries.items };

    ghost invariant = { λ row. AreEntries row.entries.items
        × (row.loss ≡ greatest_loss row.entries.items)
        × (row.reach ≡ greatest_reach row.entries.items) };
}

impl Row {
    ghost use Rattle.cg_table.specs.Losses.{greatest_loss, greatest_reach};
    ghost use Rattle.cg_table.specs.Row.{AreEntries};

    /// An empty row. Takes no memory.
    pub fn new(alloc: Global) -> Row
        ensures { result ≡ [] }
    {
        Row {
            entries: Vec::new(alloc),
            loss: 0,
            reach: 0,
        }
    }

    /// Puts the entry of one more cell at the end.
    pub fn push(&mut self, e: Enc) -> Result<(), NoMemory>
        requires { IsExponent (2 ^ 60) e.exp }
        ensures ok { OnOk result (self.new ≡ self.old ++ e ∷ []) }
        ensures err { OnErr result (self.new ≡ self.old) }
    {
        self.entries.push(e)?;
        self.loss = greater_loss(&e, self.loss);
        self.reach = greater_reach(&e, self.reach);
        Ok(())
    }

    /// The number of cells.
    #[inline]
    pub fn len(&self) -> usize
        ensures cells { result ≡ length self.now }
        ensures entries { AreEntries self.now }
    {
        self.entries.len()
    }

    /// The entry of a cell.
    #[inline]
    pub fn get(&self, cell: usize) -> Enc
        requires { cell < length self.now }
        ensures value { slice_get self.now cell ≡ Some result }
        ensures entry { result ≡ slice_index_or self.now cell exact_zero }
        ensures valid { IsEnclosure result }
        ensures near { IsExponent (2 ^ 60) result.exp }
    {
        self.entries[cell]
    }

    /// The greatest loss of an entry: the least number that is a loss of each.
    #[inline]
    pub fn loss(&self) -> u64
        ensures value { result ≡ greatest_loss self.now }
        ensures each { All (λ e. HasLoss e result) self.now }
        ensures least { (k : ℕ) → All (λ e. HasLoss e k) self.now → result ≤ k }
    {
        self.loss
    }

    /// The least number of times 2^31 within which each exponent lies, on both sides of 0.
    #[inline]
    pub fn reach(&self) -> u32
        ensures value { result ≡ greatest_reach self.now }
        ensures each { All (λ e. IsExponent (result * 2 ^ 31) e.exp) self.now }
        ensures least { (m : ℕ) → All (λ e. IsExponent (m * 2 ^ 31) e.exp) self.now → result ≤ m }
    {
        self.reach
    }
}
