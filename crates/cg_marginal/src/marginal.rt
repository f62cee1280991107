ghost use Rattle.std.specs.Prelude.{◌≡◌, ◌+◌, ◌<◌, ◌≤◌, Some, IfSome, length, slice_get};
ghost use Rattle.cg_marginal.specs.Marginal.{pairs_of, cell_count};
ghost use Rattle.cg_marginal.specs.Pairs.{ArePairs, IsPair};

use std::marker::Model;

/// A posterior in parts per million.
#[derive(Drop)]
pub enum Marginal {
    /// No dating is allowed, so there is no posterior.
    Impossible,
    Pairs(Pairs),
}

/// Bounds of a posterior, one pair for each cell, in parts per million.
///
/// Lower and upper end are at most 3 apart, the upper at most 1,000,000, and the upper ends sum to at least 1,000,000.
#[derive(Drop)]
pub struct Pairs {
    cells: Vec<(u32, u32)>,
}

impl Model for Pairs {
    ghost use Rattle.std.specs.Prelude.{ℕ, List};
    ghost use Rattle.cg_marginal.specs.Pairs.{ArePairs};

    ghost Value = { List (ℕ × ℕ) };

    ghost view = { λ pairs. pairs.cells.items };

    ghost invariant = { λ pairs. ArePairs pairs.cells.items };
}

impl Marginal {
    /// The number of cells, and 0 where no dating is allowed.
    pub fn len(&self) -> usize
        ensures cells { result ≡ cell_count self.now }
        ensures pairs { IfSome (pairs_of self.now) ArePairs }
    {
        match self {
            Marginal::Impossible => 0,
            Marginal::Pairs(pairs) => pairs.len(),
        }
    }

    /// The lower and the upper end at a cell, in parts per million. It is not for `Impossible`, which has no cell.
    pub fn pair(&self, cell: usize) -> (u32, u32)
        requires { cell < cell_count self.now }
        ensures value { IfSome (pairs_of self.now) (λ pairs. slice_get pairs cell ≡ Some result) }
        ensures ordered { result.0 ≤ result.1 }
        ensures whole { result.1 ≤ 1000000 }
        ensures close { result.1 ≤ result.0 + 3 }
    {
        match self {
            Marginal::Impossible => unreachable!(),
            Marginal::Pairs(pairs) => pairs.pair(cell),
        }
    }
}

impl Pairs {
    pub(crate) fn new(cells: Vec<(u32, u32)>) -> Pairs
        requires { ArePairs cells.items }
        ensures { result ≡ cells.items }
    {
        Pairs { cells }
    }

    /// The number of cells.
    pub fn len(&self) -> usize
        ensures cells { result ≡ length self.now }
        ensures pairs { ArePairs self.now }
    {
        self.cells.len()
    }

    /// The lower and the upper end at a cell, in parts per million.
    pub fn pair(&self, cell: usize) -> (u32, u32)
        requires { cell < length self.now }
        ensures value { slice_get self.now cell ≡ Some result }
        ensures pair { IsPair result }
    {
        self.cells[cell]
    }
}
