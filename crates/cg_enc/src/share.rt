//! One enclosure as a share of another.
ghost use Rattle.std.specs.Prelude.{◌≡◌, ◌+◌, ◌*◌, ◌/◌, ◌^◌, ◌<◌, ◌≤◌, ◌≤ℤ◌, ◌↔◌, min, ℕ};
ghost use Rattle.cg_enc.specs.Enclosure.{Encloses, IsEnclosure, IsExponent, IsFirm, IsZero};
ghost use Rattle.cg_enc.specs.Rounding.{ceil_div, ppm_above, ppm_below};

use crate::enclosure::Enc;
use crate::normal::shifted_up;
use crate::sum::distance;

const MILLION: u128 = 1_000_000;

impl Enc {
    /// `num` over `den` in parts per million: a lower bound, rounded down, and an upper bound,
    /// rounded up, both at most 1,000,000.
    ///
    /// They enclose the share where what `num` encloses isn't greater than what `den` does. `den`
    /// has to be firm.
    pub fn ppm(num: &Enc, den: &Enc) -> (u32, u32)
        requires left { IsExponent (2 ^ 60) num.now.exp }
        requires right { IsExponent (2 ^ 60) den.now.exp }
        requires firm { IsFirm den.now }
        ensures lower { result.0 ≡ ppm_below num.now den.now }
        ensures upper { result.1 ≡ ppm_above num.now den.now }
        ensures within { (result.0 ≤ result.1) × (result.1 ≤ 1000000) }
        ensures zero { (result.1 ≡ 0) ↔ IsZero num.now }
        ensures encloses { (n d n' d' : ℕ) → Encloses num.now n d → Encloses den.now n' d' →
            n * d' ≤ n' * d →
            (result.0 * n' * d ≤ 1000000 * n * d') × (1000000 * n * d' ≤ result.1 * n' * d) }
    {
        share(num, den)
    }
}

fn share(num: &Enc, den: &Enc) -> (u32, u32)
    requires left { IsExponent (2 ^ 60) num.now.exp }
    requires right { IsExponent (2 ^ 60) den.now.exp }
    requires firm { IsFirm den.now }
    ensures lower { result.0 ≡ ppm_below num.now den.now }
    ensures upper { result.1 ≡ ppm_above num.now den.now }
    ensures valid { IsEnclosure num.now × IsEnclosure den.now }
{
    let whole = den.lo();
    if num.hi() == 0 {
        return (0, 0);
    }
    if num.exp() >= den.exp() {
        let places = distance(num.exp(), den.exp());
        return (
            below(
                MILLION * raised(num.lo(), den.hi(), places) as u128,
                den.hi(),
            ),
            above(MILLION * raised(num.hi(), whole, places) as u128, whole),
        );
    }
    let places = distance(den.exp(), num.exp());
    (
        below(floor_shift(MILLION * num.lo() as u128, places), den.hi()),
        above(ceil_shift(MILLION * num.hi() as u128, places), whole),
    )
}

// part * 2^places, or the whole where that is more: no share is greater.
fn raised(part: u64, whole: u64, places: u64) -> u64
    requires { part < 2 ^ 63 }
    ensures { result ≡ min whole (part * 2 ^ places) }
{
    if part == 0 {
        return 0;
    }
    if places >= 64 {
        return whole;
    }
    ((part as u128) << places).min(whole as u128) as u64
}

// n / whole, at most a million.
fn below(n: u128, whole: u64) -> u32
    requires { 1 ≤ whole }
    ensures { result ≡ min 1000000 (n / whole) }
{
    (n / whole as u128).min(MILLION) as u32
}

// n / whole, rounded up, at most a million.
fn above(n: u128, whole: u64) -> u32
    requires some { 1 ≤ whole }
    requires fits { n < 2 ^ 127 }
    ensures { result ≡ min 1000000 (ceil_div n whole) }
{
    ((n + (whole - 1) as u128) / whole as u128).min(MILLION) as u32
}

// n / 2^places.
fn floor_shift(n: u128, places: u64) -> u128
    ensures { result ≡ n / 2 ^ places }
{
    if places < 128 { n >> places } else { 0 }
}

// n / 2^places, rounded up.
fn ceil_shift(n: u128, places: u64) -> u128
    requires { 0 < n }
    ensures { result ≡ ceil_div n (2 ^ places) }
{
    if places < 128 {
        shifted_up(n, places as u32)
    } else {
        1
    }
}
