//! Products of enclosures.
ghost use Rattle.std.specs.Prelude.{◌≡◌, ◌+◌, ◌*◌, ◌^◌, ◌<◌, ◌≤◌, ◌↔◌, ◌⊎◌, ℕ};
ghost use Rattle.cg_enc.specs.Enclosure.{Encloses, HasLoss, IsEnclosure, IsExponent, IsZero};
ghost use Rattle.cg_enc.specs.Rounding.{norm, times};

use crate::enclosure::{Enc, made};
use crate::normal::TOP;

// An upper end isn't below it: 2^62.
const HALF: u64 = 0x4000_0000_0000_0000;

impl Enc {
    /// The product: the lower end rounded down, the upper end rounded up.
    #[inline]
    pub fn times(&self, other: &Enc) -> Enc
        requires left { IsExponent (2 ^ 60) self.now.exp }
        requires right { IsExponent (2 ^ 60) other.now.exp }
        ensures value { result ≡ times self.now other.now }
        ensures valid { IsEnclosure result }
        ensures encloses { (n d n' d' : ℕ) → Encloses self.now n d → Encloses other.now n' d' →
            Encloses result (n * n') (d * d') }
        ensures loss { (k k' : ℕ) → HasLoss self.now k → HasLoss other.now k' →
            HasLoss result (k + k' + 3) }
        ensures zero { IsZero result ↔ (IsZero self.now ⊎ IsZero other.now) }
        ensures exponent { (m m' : ℕ) → IsExponent m self.now.exp → IsExponent m' other.now.exp →
            IsExponent (m + m' + 63) result.exp }
    {
        product(self, other)
    }
}

#[inline]
fn product(a: &Enc, b: &Enc) -> Enc
    requires left { IsExponent (2 ^ 60) a.now.exp }
    requires right { IsExponent (2 ^ 60) b.now.exp }
    ensures value { result ≡ times a.now b.now }
    ensures valid { IsEnclosure a.now × IsEnclosure b.now }
{
    let high = b.hi();
    if a.hi() == 0 || high == 0 {
        return Enc::zero();
    }
    scaled(
        a.lo() as u128 * b.lo() as u128,
        a.hi() as u128 * high as u128,
        a.exp() + b.exp(),
    )
}

// The normal form of ends whose upper end is a product of two of 63 digits: a move by 62 or 63
// places.
#[inline]
fn scaled(lo: u128, hi: u128, exp: i64) -> Enc
    requires ordered { lo ≤ hi }
    requires least { 2 ^ 124 ≤ hi }
    requires most { hi + 2 ^ 63 ≤ 2 ^ 126 }
    requires reach { IsExponent (2 ^ 61) exp }
    ensures { result ≡ norm lo hi exp }
{
    let high = (hi + (HALF - 1) as u128) >> 62;
    if high < TOP as u128 {
        made((lo >> 62) as u64, high as u64, exp + 62)
    } else {
        made(
            (lo >> 63) as u64,
            ((hi + (TOP - 1) as u128) >> 63) as u64,
            exp + 63,
        )
    }
}
