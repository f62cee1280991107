//! Sums of enclosures.
ghost use Rattle.std.specs.Prelude.{◌≡◌, ◌+◌, ◌*◌, ◌/◌, ◌^◌, ◌<◌, ◌≤◌, ◌≤ℤ◌, ◌↔◌, ℕ};
ghost use Rattle.cg_enc.specs.Enclosure.{Encloses, HasLoss, IsEnclosure, IsExponent, IsZero};
ghost use Rattle.cg_enc.specs.Rounding.{ceil_div, gap, plus, plus_at};

use crate::enclosure::Enc;
use crate::normal::settled;

impl Enc {
    /// The sum: the lower end rounded down, the upper end rounded up.
    ///
    /// The ends with the smaller exponent are brought to the greater one, however far apart they
    /// are.
    #[inline]
    pub fn plus(&self, other: &Enc) -> Enc
        requires left { IsExponent (2 ^ 60) self.now.exp }
        requires right { IsExponent (2 ^ 60) other.now.exp }
        ensures value { result ≡ plus self.now other.now }
        ensures valid { IsEnclosure result }
        ensures encloses { (n d n' d' : ℕ) → Encloses self.now n d → Encloses other.now n' d' →
            Encloses result (n * d' + n' * d) (d * d') }

        // The greater one of two losses is a loss of both.
        ensures loss { (k : ℕ) → HasLoss self.now k → HasLoss other.now k → HasLoss result (k + 3) }
        ensures zero { IsZero result ↔ (IsZero self.now × IsZero other.now) }
        ensures exponent { (m : ℕ) → IsExponent m self.now.exp → IsExponent m other.now.exp →
            IsExponent (m + 1) result.exp }
    {
        sum(self, other)
    }
}

#[inline]
fn sum(a: &Enc, b: &Enc) -> Enc
    requires left { IsExponent (2 ^ 60) a.now.exp }
    requires right { IsExponent (2 ^ 60) b.now.exp }
    ensures value { result ≡ plus a.now b.now }
    ensures valid { IsEnclosure a.now × IsEnclosure b.now }
{
    let high = b.hi();
    if a.hi() == 0 {
        return *b;
    }
    if high == 0 {
        return *a;
    }
    if a.exp() >= b.exp() {
        added(a, b)
    } else {
        added(b, a)
    }
}

// The sum of two that aren't zero, `a` having the greater exponent.
#[inline]
fn added(a: &Enc, b: &Enc) -> Enc
    requires left { 0 < a.now.hi }
    requires right { 0 < b.now.hi }
    requires order { b.now.exp ≤ℤ a.now.exp }
    requires reach { IsExponent (2 ^ 60) a.now.exp }
    requires reach_right { IsExponent (2 ^ 60) b.now.exp }
    ensures { result ≡ plus_at a.now b.now }
{
    let places = distance(a.exp(), b.exp());
    let lo = a.lo() + floor_shift(b.lo(), places);
    let hi = a.hi() + ceil_shift(b.hi(), places);
    settled(lo, hi, a.exp())
}

// By how much one exponent is above another.
#[inline]
pub(crate) fn distance(e: i64, f: i64) -> u64
    requires order { f ≤ℤ e }
    requires reach { IsExponent (2 ^ 60) e }
    requires reach_right { IsExponent (2 ^ 60) f }
    ensures { result ≡ gap e f }
{
    (e - f) as u64
}

// n / 2^places.
#[inline]
fn floor_shift(n: u64, places: u64) -> u64
    ensures { result ≡ n / 2 ^ places }
{
    if places < 64 { n >> places } else { 0 }
}

// n / 2^places, rounded up.
#[inline]
fn ceil_shift(n: u64, places: u64) -> u64
    requires some { 0 < n }
    requires fits { n < 2 ^ 63 }
    ensures { result ≡ ceil_div n (2 ^ places) }
{
    if places < 63 {
        (n + ((1 << places) - 1)) >> places
    } else {
        1
    }
}
