//! Quotients of enclosures.
ghost use Rattle.std.specs.Prelude.{◌≡◌, ◌+◌, ◌*◌, ◌^◌, ◌<◌, ◌≤◌, ◌↔◌, ℕ};
ghost use Rattle.cg_enc.specs.Enclosure.{Encloses, HasLoss, IsEnclosure, IsExponent};
ghost use Rattle.cg_enc.specs.Enclosure.{IsFirm, IsZero};
ghost use Rattle.cg_enc.specs.Rounding.{over, over_places};

use crate::enclosure::{Enc, made};
use crate::normal::moved;

impl Enc {
    /// The quotient by one that is firm: the lower end rounded down, the upper end rounded up.
    pub fn over(&self, other: &Enc) -> Enc
        requires left { IsExponent (2 ^ 60) self.now.exp }
        requires right { IsExponent (2 ^ 60) other.now.exp }
        requires firm { IsFirm other.now }
        ensures value { result ≡ over self.now other.now }
        ensures valid { IsEnclosure result }
        ensures encloses { (n d n' d' : ℕ) → Encloses self.now n d → Encloses other.now n' d' →
            Encloses result (n * d') (d * n') }
        ensures loss { (k k' : ℕ) → HasLoss self.now k → HasLoss other.now k' →
            HasLoss result (k + k' + 3) }
        ensures zero { IsZero result ↔ IsZero self.now }
        ensures exponent { (m m' : ℕ) → IsExponent m self.now.exp → IsExponent m' other.now.exp →
            IsExponent (m + m' + 63) result.exp }
    {
        quotient(self, other)
    }
}

fn quotient(a: &Enc, b: &Enc) -> Enc
    requires left { IsExponent (2 ^ 60) a.now.exp }
    requires right { IsExponent (2 ^ 60) b.now.exp }
    requires firm { IsFirm b.now }
    ensures value { result ≡ over a.now b.now }
    ensures valid { IsEnclosure a.now × IsEnclosure b.now }
{
    let low = b.lo();
    if a.hi() == 0 {
        return Enc::zero();
    }
    let places = places_over(a.hi(), low);
    let lo = moved(a.lo(), places) / b.hi() as u128;
    let hi = (moved(a.hi(), places) + (low - 1) as u128) / low as u128;
    made(lo as u64, hi as u64, a.exp() - b.exp() - places as i64)
}

// By how many places an upper end is moved before it is divided: as many as the divisor has
// digits, or one less where the quotient would pass 63 digits.
#[inline]
fn places_over(hi: u64, lo: u64) -> u32
    requires least { 2 ^ 62 ≤ hi }
    requires most { hi < 2 ^ 63 }
    requires firm { 1 ≤ lo }
    requires fits { lo < 2 ^ 63 }
    ensures value { result ≡ over_places hi lo }
    ensures near { result ≤ 63 }
{
    let places = 64 - lo.leading_zeros();
    let stays = moved(hi, places) <= moved(lo, 63) - lo as u128;
    if stays { places } else { places - 1 }
}
