//! Calls that are counted from 1, of which some are to fail.

ghost use Rattle.std.specs.Prelude.{◌≡◌, ◌↔◌, IsTrue, OnOk, OnErr};

use std::alloc::{AllocError, Global};
use std::marker::Model;

/// How many calls there were, and the numbers of those that are to fail.
#[derive(Drop)]
pub(crate) struct Calls {
    made: u64,
    failing: Vec<u64>,
}

impl Model for Calls {
    ghost use Rattle.cg_io.specs.Calls.{Counted};

    ghost Value = { Counted };

    ghost view = { λ c. record { made = c.made; failing = c.failing.items } };
}

impl Calls {
    ghost use Rattle.cg_io.specs.Calls.{no_calls, with_failing, after_call, IsToFail};

    /// No call yet, and none that is to fail.
    pub(crate) fn new(alloc: Global) -> Calls
        ensures { result ≡ no_calls }
    {
        Calls {
            made: 0,
            failing: Vec::new(alloc),
        }
    }

    /// The call of this number is to fail.
    pub(crate) fn fail_on(&mut self, call: u64) -> Result<(), AllocError>
        ensures ok { OnOk result (self.new ≡ with_failing self.old call) }
        ensures err { OnErr result (self.new ≡ self.old) }
    {
        self.failing.push(call)?;
        Ok(())
    }

    /// Counts one more call, and returns whether it is to fail.
    pub(crate) fn count(&mut self) -> bool
        ensures fails { IsTrue result ↔ IsToFail self.old }
        ensures counted { self.new ≡ after_call self.old }
    {
        let fails = self.is_next_failing();
        self.made = self.made.saturating_add(1);
        fails
    }

    /// Whether the next call is to fail. At the end of `u64` none is.
    fn is_next_failing(&self) -> bool
        ensures { IsTrue result ↔ IsToFail self.now }
    {
        let next = u128::from(self.made) + 1;
        self.failing.iter().any(|&call| u128::from(call) == next)
    }
}
