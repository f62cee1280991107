//! Enclosures by their three numbers.
ghost use Rattle.std.specs.Prelude.{◌^◌};
ghost use Rattle.cg_enc.specs.Enclosure.{IsExponent};

use cg_enc::Enc;
use std::process::Abort;

/// The lower end, the upper end and the exponent.
pub(crate) type Ends = (u64, u64, i64);

pub(crate) const HALF: u64 = 0x4000_0000_0000_0000;

pub(crate) const FULL: u64 = 0x7fff_ffff_ffff_ffff;

/// 2^60, the farthest exponent.
pub(crate) const FAR: i64 = 0x1000_0000_0000_0000;

/// The enclosure of these numbers.
pub(crate) fn enc(rt: &impl Abort, numbers: Ends) -> Enc
    ensures { IsExponent (2 ^ 60) result.exp }
{
    let (lo, hi, exp) = numbers;
    if hi == 0 {
        return Enc::zero();
    }
    assert!(rt; lo <= hi && hi <= FULL && -FAR <= exp && exp <= FAR);
    let made = Enc::of_bounds(lo, hi, exp);
    assert!(rt; -FAR <= made.exp() && made.exp() <= FAR);
    made
}

/// The numbers of an enclosure.
pub(crate) fn ends(a: Enc) -> Ends {
    (a.lo(), a.hi(), a.exp())
}
