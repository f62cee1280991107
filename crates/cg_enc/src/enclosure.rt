//! The type of enclosures, and what can be read of one.
ghost use Rattle.std.specs.Prelude.{◌≡◌, ◌^◌, ◌*◌, ◌<◌, ◌↔◌, ℕ, IsTrue};

use std::marker::Model;

/// A positive number between `lo` and `hi`, both in units of 2^`exp`, or zero.
#[derive(Clone, Copy)]
pub struct Enc {
    lo: u64,
    hi: u64,
    exp: i64,
}

impl Model for Enc {
    ghost use Rattle.cg_enc.specs.Enclosure.{Enclosure, IsEnclosure};

    ghost Value = { Enclosure };

    ghost view = { λ a. record { lo = a.lo; hi = a.hi; exp = a.exp } };

    ghost invariant = { λ a. IsEnclosure (record { lo = a.lo; hi = a.hi; exp = a.exp }) };

    ghost inverse = { λ a. record { lo = a.lo; hi = a.hi; exp = a.exp } };
}

impl Enc {
    ghost use Rattle.cg_enc.specs.Enclosure.{exact_zero, Encloses, HasLoss};
    ghost use Rattle.cg_enc.specs.Enclosure.{IsEnclosure, IsFirm, IsZero};

    /// Zero, which encloses 0 alone.
    #[inline]
    pub fn zero() -> Enc
        ensures value { result ≡ exact_zero }
        ensures valid { IsEnclosure result }
        ensures alone { (n d : ℕ) → Encloses result n d ↔ (n ≡ 0) }
    {
        Enc {
            lo: 0,
            hi: 0,
            exp: 0,
        }
    }

    /// The lower end, in units of 2^`exp`.
    #[inline]
    pub fn lo(&self) -> u64
        ensures value { result ≡ self.now.lo }
        ensures valid { IsEnclosure self.now }
    {
        self.lo
    }

    /// The upper end, in units of 2^`exp`.
    #[inline]
    pub fn hi(&self) -> u64
        ensures value { result ≡ self.now.hi }
        ensures valid { IsEnclosure self.now }
    {
        self.hi
    }

    /// The exponent of the unit of both ends.
    #[inline]
    pub fn exp(&self) -> i64
        ensures value { result ≡ self.now.exp }
        ensures valid { IsEnclosure self.now }
    {
        self.exp
    }

    /// Whether it is zero, which encloses 0 alone.
    #[inline]
    pub fn is_zero(&self) -> bool
        ensures test { IsTrue result ↔ IsZero self.now }
        ensures zero { IsTrue result → self.now ≡ exact_zero }
        ensures valid { IsEnclosure self.now }
    {
        self.hi == 0
    }

    /// Whether the lower end is at least 1, so that all that it encloses is above 0.
    ///
    /// One that isn't zero and has a loss below 2^62 is firm.
    #[inline]
    pub fn is_firm(&self) -> bool
        ensures test { IsTrue result ↔ IsFirm self.now }
        ensures little_loss { (k : ℕ) → k < 2 ^ 62 → HasLoss self.now k → 0 < self.now.hi →
            IsTrue result }
        ensures valid { IsEnclosure self.now }
    {
        self.lo() >= 1
    }
}

ghost use Rattle.cg_enc.specs.Enclosure.{IsEnclosure};

// The enclosure of these three numbers.
#[inline]
pub(crate) fn made(lo: u64, hi: u64, exp: i64) -> Enc
    requires { IsEnclosure (record { lo = lo; hi = hi; exp = exp }) }
    ensures { result ≡ record { lo = lo; hi = hi; exp = exp } }
{
    Enc { lo, hi, exp }
}
