ghost use Rattle.std.specs.Prelude.{◌≡◌, ◌<◌, ◌≤◌, ◌↔◌, ℤ, pos, ◌+ℤ◌, ◌-ℤ◌, ◌≤ℤ◌, IsOk, IfOk, IfErr};
ghost use Rattle.cg_meaning.specs.Scene.{year_of, admits};

use crate::dating::Dating;
use cg_num::Year;
use std::marker::Model;

const MAX_CELLS: i64 = 512;

/// The calendar years on which events are dated: 1 to 512 cells, one for each year, the oldest first.
#[derive(Clone, Copy, Debug, PartialEq, Eq)]
pub struct Grid {
    oldest: i32,
    cells: usize,
}

impl Model for Grid {
    ghost use Rattle.cg_meaning.specs.Scene.{Grid};
    ghost use Rattle.cg_model.specs.Grid.{IsGrid};

    ghost Value = { Grid };

    ghost view = { λ g. record { oldest = g.oldest; cells = g.cells } };

    ghost invariant = { λ g. IsGrid g.oldest g.cells };

    ghost inverse = { λ g. record { oldest = g.oldest; cells = g.cells } };
}

/// The limit that a refused grid passes.
#[derive(Clone, Copy, Debug, PartialEq, Eq)]
pub struct GridLimit {
    /// How many cells it would have had: 0 or fewer where the younger year is given as the older one.
    pub cells: i64,
}

impl Grid {
    ghost use Rattle.cg_model.specs.Dating.{dating_of};
    ghost use Rattle.cg_model.specs.Grid.{cells_from};

    /// The grid from an older year to a younger one, both included. Refused exactly where that isn't 1 to 512 cells.
    pub fn new(older: Year, younger: Year) -> Result<Grid, GridLimit>
        ensures ok { IfOk result (λ grid. (grid.oldest ≡ older) × (pos grid.cells ≡ cells_from older younger)) }
        ensures fits { IsOk result ↔ ((pos 1 ≤ℤ cells_from older younger) × (cells_from older younger ≤ℤ pos 512)) }
        ensures limit { IfErr result (λ limit. limit.cells ≡ cells_from older younger) }
    {
        let cells = older.bp() as i64 - younger.bp() as i64 + 1;
        match cells {
            1..=MAX_CELLS => Ok(Grid {
                oldest: older.bp(),
                cells: cells as usize,
            }),
            _ => Err(GridLimit { cells }),
        }
    }

    /// How many cells there are.
    pub fn cells(&self) -> usize
        ensures cells { result ≡ self.now.cells }
        ensures some { 1 ≤ result }
        ensures few { result ≤ 512 }
    {
        self.cells
    }

    /// The year of a cell.
    pub fn year(&self, cell: usize) -> Year
        requires { cell < self.now.cells }
        ensures { result ≡ year_of self.now cell }
    {
        Year::within(self.oldest - cell as i32)
    }

    /// Whether an event of this dating may be at the cell: one of an exact year only at the cell of that year.
    pub fn admits(&self, dating: &Dating, cell: usize) -> bool
        requires { cell < self.now.cells }
        ensures { result ≡ admits self.now (dating_of dating.now) cell }
    {
        match dating {
            Dating::Exact(year) => self.year(cell).bp() == year.bp(),
            Dating::Free | Dating::Normal(_, _) | Dating::Carbon(_, _) => true,
        }
    }
}
