//! The normal form: an upper end of 63 binary digits.
ghost use Rattle.std.specs.Prelude.{◌≡◌, ◌+◌, ◌-◌, ◌*◌, ◌^◌, ◌<◌, ◌≤◌, ◌↔◌, ℕ, pos};
ghost use Rattle.cg_enc.specs.Enclosure.{Encloses, HasLoss, IsEnclosure, IsExponent, IsZero};
ghost use Rattle.cg_enc.specs.Rounding.{ceil_div, norm, of_whole, right};

use crate::enclosure::{Enc, made};

// An upper end is below it: 2^63.
pub(crate) const TOP: u64 = 0x8000_0000_0000_0000;

impl Enc {
    /// A whole number. Exact below 2^63, else the lower end rounded down, the upper end rounded up.
    pub fn of_whole(n: u128) -> Enc
        ensures value { result ≡ of_whole n }
        ensures valid { IsEnclosure result }
        ensures encloses { Encloses result n 1 }
        ensures loss { HasLoss result 1 }
        ensures exact { n < 2 ^ 63 → HasLoss result 0 }
        ensures zero { IsZero result ↔ (n ≡ 0) }
        ensures exponent { IsExponent 66 result.exp }
    {
        whole(n)
    }

    /// What stands between `lo` and `hi` in units of 2^`exp`. Exact: nothing is rounded.
    pub fn of_bounds(lo: u64, hi: u64, exp: i64) -> Enc
        requires ordered { lo ≤ hi }
        requires some { 1 ≤ hi }
        requires fits { hi < 2 ^ 63 }
        requires reach { IsExponent (2 ^ 60) exp }
        ensures value { result ≡ norm lo hi exp }
        ensures valid { IsEnclosure result }
        ensures encloses { (n d : ℕ) → Encloses (record { lo = lo; hi = hi; exp = exp }) n d →
            Encloses result n d }
        ensures loss { (k : ℕ) → HasLoss (record { lo = lo; hi = hi; exp = exp }) k →
            HasLoss result k }
        ensures positive { 0 < result.hi }
        ensures exponent { (m : ℕ) → IsExponent m exp → IsExponent (m + 62) result.exp }
    {
        raised(lo, hi, exp)
    }
}

fn whole(n: u128) -> Enc
    ensures { result ≡ of_whole n }
{
    if n == 0 {
        return Enc::zero();
    }
    if n < TOP as u128 {
        return raised(n as u64, n as u64, 0);
    }
    lowered(n)
}

// The normal form of ends below 2^63.
#[inline]
fn raised(lo: u64, hi: u64, exp: i64) -> Enc
    requires ordered { lo ≤ hi }
    requires some { 1 ≤ hi }
    requires fits { hi < 2 ^ 63 }
    requires reach { IsExponent (2 ^ 60) exp }
    ensures { result ≡ norm lo hi exp }
{
    let places = hi.leading_zeros() - 1;
    made(lo << places, hi << places, exp - places as i64)
}

// The normal form of a whole number of 2^63 or more.
fn lowered(n: u128) -> Enc
    requires { 2 ^ 63 ≤ n }
    ensures { result ≡ norm n n (pos 0) }
{
    let places = right_places(n);
    made(
        (n >> places) as u64,
        shifted_up(n, places) as u64,
        places as i64,
    )
}

// By how many places an upper end of 2^63 or more is moved.
#[inline]
fn right_places(hi: u128) -> u32
    requires { 2 ^ 63 ≤ hi }
    ensures { result ≡ right hi }
{
    let places = 65 - hi.leading_zeros();
    if shifted_up(hi, places) < TOP as u128 {
        places
    } else {
        places + 1
    }
}

// n / 2^places, rounded up.
#[inline]
pub(crate) fn shifted_up(n: u128, places: u32) -> u128
    requires { places < 128 }
    ensures { result ≡ ceil_div n (2 ^ places) }
{
    let whole = n >> places;
    let exact = whole << places == n;
    if exact { whole } else { whole + 1 }
}

// n * 2^places.
#[inline]
pub(crate) fn moved(n: u64, places: u32) -> u128
    requires { places ≤ 63 }
    ensures value { result ≡ n * 2 ^ places }
    ensures fits { result < 2 ^ 127 }
{
    (n as u128) << places
}

// The normal form of ends whose upper end is moved by one place at most.
#[inline]
pub(crate) fn settled(lo: u64, hi: u64, exp: i64) -> Enc
    requires ordered { lo ≤ hi }
    requires least { 2 ^ 62 ≤ hi }
    requires most { hi + 2 ≤ 2 ^ 64 }
    requires reach { IsExponent (2 ^ 61) exp }
    ensures { result ≡ norm lo hi exp }
{
    if hi < TOP {
        made(lo, hi, exp)
    } else {
        made(lo >> 1, (hi + 1) >> 1, exp + 1)
    }
}
