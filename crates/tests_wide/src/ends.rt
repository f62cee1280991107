//! Enclosures by their three numbers, and tables of them that a rule makes.
ghost use Rattle.std.specs.Prelude.{◌≡◌, ◌+◌, ◌*◌, ◌^◌, All, IfOk, length};
ghost use Rattle.cg_enc.specs.Enclosure.{IsExponent};

use cg_enc::Enc;
use std::alloc::Global;
use std::process::Abort;
use std::test::Fail;

/// The lower end, the upper end and the exponent.
pub(crate) type Ends = (u64, u64, i64);

const HALF: u64 = 0x4000_0000_0000_0000;

/// The numbers of an enclosure.
pub(crate) fn ends(a: Enc) -> Ends {
    (a.lo(), a.hi(), a.exp())
}

// The enclosure of a number, by a rule that spreads its digits.
fn made(rt: &impl Abort, number: u64) -> Enc
    ensures { IsExponent (2 ^ 60) result.exp }
{
    let x = number.wrapping_mul(0x9e37_79b9_7f4a_7c15);
    if x % 7 == 0 {
        return Enc::zero();
    }
    let hi = HALF + x / 4;
    let places = (x / 0x2000_0000_0000_0000) as i64;
    let made = Enc::of_bounds(hi - x % 1024, hi, -62 - places);
    assert!(rt; -100 <= made.exp() && made.exp() <= 100);
    made
}

// The entry at a place, which is zero behind the first `kept`.
fn entry_at(rt: &impl Abort, place: usize, kept: usize, first: u64) -> Enc
    ensures { IsExponent (2 ^ 60) result.exp }
{
    if place >= kept {
        return Enc::zero();
    }
    made(rt, first.wrapping_add(place as u64))
}

/// The entries of a table, made of the numbers from `first` on: those behind the first `kept` are zero.
pub(crate) fn entries(
    rt: &impl Abort,
    alloc: Global,
    cells: usize,
    kept: usize,
    first: u64,
) -> Result<Vec<Enc>, Fail>
    ensures count { IfOk result (λ entries. 2 * length entries.items ≡ cells * (cells + 1)) }
    ensures near { IfOk result (λ entries. All (λ e. IsExponent (2 ^ 60) e.exp) entries.items) }
{
    assert!(rt; cells <= 7);
    let mut entries = Vec::new(alloc);
    for place in 0..cells * (cells + 1) / 2 {
        entries.push(entry_at(rt, place, kept, first))?;
    }
    assert_eq!(rt; 2 * entries.len(), cells * (cells + 1));
    Ok(entries)
}
