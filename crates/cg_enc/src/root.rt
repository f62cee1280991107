//! Roots of enclosures.
ghost use Rattle.std.specs.Prelude.{◌≡◌, ◌+◌, ◌*◌, ◌^◌, ◌≤◌, ◌↔◌, ◌-ℤ◌, pos, ℕ};
ghost use Rattle.cg_enc.specs.Enclosure.{Encloses, HasLoss, IsEnclosure, IsExponent, IsZero};
ghost use Rattle.cg_enc.specs.Rounding.{half, root, root_places};

use crate::enclosure::Enc;
use crate::normal::{moved, settled};
use cg_root::{root_down, root_up};

// It makes an exponent a number that isn't negative, and is even: 2^60.
const RAISE: i64 = 0x1000_0000_0000_0000;

impl Enc {
    /// The square root: the lower end rounded down, the upper end rounded up.
    ///
    /// It encloses every fraction whose square this encloses.
    pub fn root(&self) -> Enc
        requires { IsExponent (2 ^ 60) self.now.exp }
        ensures value { result ≡ root self.now }
        ensures valid { IsEnclosure result }
        ensures encloses { (n d : ℕ) → Encloses self.now (n * n) (d * d) → Encloses result n d }
        ensures loss { (k : ℕ) → HasLoss self.now k → HasLoss result (k + 3) }
        ensures zero { IsZero result ↔ IsZero self.now }
        ensures exponent { (m : ℕ) → IsExponent m self.now.exp → IsExponent (m + 31) result.exp }
    {
        rooted(self)
    }
}

fn rooted(a: &Enc) -> Enc
    requires { IsExponent (2 ^ 60) a.now.exp }
    ensures value { result ≡ root a.now }
    ensures valid { IsEnclosure a.now }
{
    if a.hi() == 0 {
        return Enc::zero();
    }
    let places = places_of(a.exp());
    settled(
        root_down(moved(a.lo(), places)),
        root_up(moved(a.hi(), places)),
        half_of(a.exp()),
    )
}

// 62 places for an even exponent, 63 for an odd one.
#[inline]
fn places_of(exp: i64) -> u32
    requires { IsExponent (2 ^ 60) exp }
    ensures value { result ≡ root_places exp }
    ensures near { result ≤ 63 }
{
    62 + ((exp + RAISE) as u64 % 2) as u32
}

// Half of an exponent, less these places.
#[inline]
fn half_of(exp: i64) -> i64
    requires { IsExponent (2 ^ 60) exp }
    ensures value { result ≡ half (exp -ℤ pos (root_places exp)) }
    ensures reach { IsExponent (2 ^ 61) result }
{
    ((exp + RAISE) as u64 / 2) as i64 - (RAISE / 2 + 31)
}
