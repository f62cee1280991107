//! Taylor's series by Horner's rule, in units of 2^-62.
ghost use Rattle.std.specs.Prelude.{◌≡◌, ◌*◌, ◌/◌, ◌^◌, ◌<◌, ◌≤◌};
ghost use Rattle.cg_enc.specs.Rounding.{ceil_div};
ghost use Rattle.cg_exp.specs.Exponential.{horner_after, step};

use crate::reduction::Reduced;

// 1 in these units: 2^62.
const UNIT: u64 = 0x4000_0000_0000_0000;

/// The sum up to the power `last`: rounded down for an odd one, up for an even one.
pub(crate) fn series(y: Reduced, last: u32) -> u64
    requires few { last ≤ 17 }
    requires below { y.below ≤ 2 ^ 60 }
    requires above { y.above ≤ 2 ^ 60 }
    ensures value { result ≡ horner_after y.below y.above last last }
    ensures most { result ≤ 2 ^ 62 }
{
    let mut value = UNIT;
    for done in 0..last {
        value = stepped(y, last, done, value);
    }
    value
}

// The next step, after `done` of them.
#[inline]
fn stepped(y: Reduced, last: u32, done: u32, value: u64) -> u64
    requires more { done < last }
    requires few { last ≤ 17 }
    requires below { y.below ≤ 2 ^ 60 }
    requires above { y.above ≤ 2 ^ 60 }
    requires most { value ≤ 2 ^ 62 }
    ensures value { result ≡ step y.below y.above last done value }
    ensures most { result ≤ 2 ^ 62 }
{
    let j = (last - done) as u64;
    if done % 2 == 0 {
        return UNIT - quotient_up(y.above, value, j);
    }
    UNIT - quotient_down(y.below, value, j)
}

// y·v/j, rounded down: the floor of a floor is exact.
#[inline]
fn quotient_down(y: u64, v: u64, j: u64) -> u64
    requires quarter { y ≤ 2 ^ 60 }
    requires most { v ≤ 2 ^ 62 }
    requires some { 0 < j }
    ensures value { result ≡ y * v / (2 ^ 62 * j) }
    ensures most { result ≤ 2 ^ 60 }
{
    ((y as u128 * v as u128) >> 62) as u64 / j
}

// y·v/j, rounded up: the ceiling of a ceiling is exact.
#[inline]
fn quotient_up(y: u64, v: u64, j: u64) -> u64
    requires quarter { y ≤ 2 ^ 60 }
    requires most { v ≤ 2 ^ 62 }
    requires some { 0 < j }
    requires few { j ≤ 17 }
    ensures value { result ≡ ceil_div (y * v) (2 ^ 62 * j) }
    ensures most { result ≤ 2 ^ 60 }
{
    let whole = ((y as u128 * v as u128 + (UNIT - 1) as u128) >> 62) as u64;
    (whole + (j - 1)) / j
}
