//! What the tables of a tree are made over.
ghost use Rattle.std.specs.Prelude.{◌≡◌, ◌<◌, ◌≤◌, length};
ghost use Rattle.cg_recipe.specs.Bounds.{AreLight};
ghost use Rattle.cg_up.specs.Pass.{IsReady, pass_of, rows_of};

use cg_table::Row;
use std::alloc::Global;

/// A grid of so many cells, and a row of weights for each event.
#[derive(Drop)]
pub(crate) struct Pass<'a> {
    alloc: Global,
    cells: usize,
    rows: &'a [Row],
}

impl<'a> Pass<'a> {
    /// The pass over these rows. Tables take their memory from `alloc`.
    pub(crate) fn new(alloc: Global, cells: usize, rows: &'a [Row]) -> Pass<'a>
        requires some { 1 ≤ cells }
        requires few { cells ≤ 512 }
        requires light { AreLight cells (rows_of cells rows.now) }
        ensures ready { IsReady result }
        ensures rows { result.rows.now ≡ rows.now }
        ensures pass { pass_of result ≡ record { cells = cells; rows = rows_of cells rows.now } }
    {
        Pass { alloc, cells, rows }
    }

    /// How many cells there are.
    pub(crate) fn cells(&self) -> usize
        ensures { result ≡ self.now.cells }
    {
        self.cells
    }

    /// What tables take their memory from.
    pub(crate) fn alloc(&self) -> Global {
        self.alloc
    }

    /// The row of an event.
    pub(crate) fn row(&self, number: u32) -> &Row
        requires { number < length self.now.rows.now }
        ensures { result.now ≡ (pass_of self.now).rows number }
    {
        &self.rows[number as usize]
    }
}
