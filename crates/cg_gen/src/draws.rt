//! The number that the draws are made from.
ghost use Rattle.std.specs.Prelude.{◌≡◌, ◌<◌};
ghost use Rattle.cg_gen.specs.Draws.{after, draw};

use std::marker::Model;

const FACTOR: u64 = 6_364_136_223_846_793_005;

const SUMMAND: u64 = 1_442_695_040_888_963_407;

/// A number that each draw takes on.
#[derive(Drop)]
pub(crate) struct Draws {
    number: u64,
}

impl Model for Draws {
    ghost use Rattle.std.specs.Prelude.{ℕ};

    ghost Value = { ℕ };

    ghost view = { λ d. d.number };
}

impl Draws {
    /// Those of this number, of which none has been made.
    pub(crate) fn new(number: u32) -> Draws
        ensures { result ≡ number }
    {
        Draws {
            number: number as u64,
        }
    }

    /// The next one below `below`.
    pub(crate) fn draw(&mut self, below: u32) -> u32
        requires { 0 < below }
        ensures value { result ≡ draw self.old 0 below }
        ensures below { result < below }
        ensures number { self.new ≡ after self.old 1 }
    {
        self.number = self.number.wrapping_mul(FACTOR).wrapping_add(SUMMAND);
        ((self.number >> 33) % below as u64) as u32
    }
}
