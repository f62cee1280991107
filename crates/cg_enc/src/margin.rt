//! Enclosures made wider.
ghost use Rattle.std.specs.Prelude.{◌≡◌, ◌+◌, ◌^◌, ◌↔◌, ℕ};
ghost use Rattle.cg_enc.specs.Enclosure.{Encloses, HasLoss, IsEnclosure, IsExponent, IsZero};
ghost use Rattle.cg_enc.specs.Rounding.{margin};

use crate::enclosure::Enc;
use crate::normal::settled;

impl Enc {
    /// The same, wider by one unit at each end: a lower end of 0 stays, and zero stays zero.
    pub fn margin(&self) -> Enc
        requires { IsExponent (2 ^ 60) self.now.exp }
        ensures value { result ≡ margin self.now }
        ensures valid { IsEnclosure result }
        ensures encloses { (n d : ℕ) → Encloses self.now n d → Encloses result n d }
        ensures loss { (k : ℕ) → HasLoss self.now k → HasLoss result (k + 3) }
        ensures zero { IsZero result ↔ IsZero self.now }
        ensures exponent { (m : ℕ) → IsExponent m self.now.exp → IsExponent (m + 1) result.exp }
    {
        widened(self)
    }
}

fn widened(a: &Enc) -> Enc
    requires { IsExponent (2 ^ 60) a.now.exp }
    ensures value { result ≡ margin a.now }
    ensures valid { IsEnclosure a.now }
{
    if a.hi() == 0 {
        return Enc::zero();
    }
    settled(a.lo().saturating_sub(1), a.hi() + 1, a.exp())
}
