ghost use Rattle.std.specs.Prelude.{◌≡◌, ◌<◌, Some, length, slice_get};

use std::marker::Model;

/// The cells that cover a part of a posterior, as runs of consecutive ones.
#[derive(Drop)]
pub struct Ranges {
    sum: u32,
    runs: Vec<(usize, usize)>,
}

impl Model for Ranges {
    ghost use Rattle.cg_ranges.specs.Ranges as meaning;

    ghost Value = { meaning.Ranges };

    ghost view = { λ r. record { sum = r.sum; runs = r.runs.items } };
}

impl Ranges {
    pub(crate) fn new(sum: u32, runs: Vec<(usize, usize)>) -> Ranges
        ensures sum { result.sum ≡ sum }
        ensures runs { result.runs ≡ runs.items }
    {
        Ranges { sum, runs }
    }

    /// What the lower ends at all its cells sum to, in parts per million.
    pub fn sum(&self) -> u32
        ensures { result ≡ self.now.sum }
    {
        self.sum
    }

    /// The number of runs.
    pub fn count(&self) -> usize
        ensures { result ≡ length self.now.runs }
    {
        self.runs.len()
    }

    /// The first and the last cell of a run, of which the oldest has the number 0.
    pub fn run(&self, i: usize) -> (usize, usize)
        requires { i < length self.now.runs }
        ensures { slice_get self.now.runs i ≡ Some result }
    {
        self.runs[i]
    }
}
