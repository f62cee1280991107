//! From sums over datings to their parts.
ghost use Rattle.std.specs.Prelude.{◌≡◌, ◌^◌, ◌<◌, ◌≤◌, ◌↔◌, ℕ, All, IfOk, IfSome, length};
ghost use Rattle.cg_enc.specs.Enclosure.{IsZero};
ghost use Rattle.cg_table.specs.Losses.{greatest_loss, greatest_reach};
ghost use Rattle.cg_table.specs.Row.{AreEntries};
ghost use Rattle.cg_table.specs.Table.{EnclosesRow};
ghost use Rattle.cg_marginal.specs.Finished.{finished, whole_of, ArePartsOf};
ghost use Rattle.cg_marginal.specs.Marginal.{pairs_of};

use crate::marginal::{Marginal, Pairs};
use cg_enc::Enc;
use cg_num::NoMemory;
use cg_table::Row;
use std::alloc::Global;

/// The posterior of an event that has these sums over allowed datings, one for each cell: what each is of all
/// together, in parts per million. A lower end is rounded down and an upper end up.
///
/// `Impossible` comes exactly where every sum is zero. A pair's ends are at most 3 apart.
pub fn finish(alloc: Global, n: &Row) -> Result<Marginal, NoMemory>
    requires some { 0 < length n.now }
    requires few { length n.now ≤ 512 }
    requires loss { greatest_loss n.now < 2 ^ 41 }
    requires reach { greatest_reach n.now < 2 ^ 20 }
    ensures value { IfOk result (λ m. pairs_of m ≡ finished n.now) }
    ensures cells { IfOk result (λ m. IfSome (pairs_of m) (λ pairs. length pairs ≡ length n.now)) }
    ensures impossible { IfOk result (λ m. (m ≡ Marginal.Impossible) ↔ All IsZero n.now) }

    // They hold for all numbers that the sums enclose.
    ensures holds { (x : ℕ → ℕ) (d : ℕ) → 0 < d → EnclosesRow n.now x d →
        IfOk result (λ m. IfSome (pairs_of m) (ArePartsOf x (length n.now))) }
{
    shares(alloc, n)
}

// A pair for each entry, or nothing where all are zero.
fn shares(alloc: Global, n: &Row) -> Result<Marginal, NoMemory>
    requires some { 0 < length n.now }
    requires few { length n.now ≤ 512 }
    requires loss { greatest_loss n.now < 2 ^ 41 }
    requires reach { greatest_reach n.now < 2 ^ 20 }
    ensures value { IfOk result (λ m. pairs_of m ≡ finished n.now) }
    ensures entries { AreEntries n.now }
{
    let whole = whole_of(n);
    if whole.is_zero() {
        return Ok(Marginal::Impossible);
    }
    let mut cells = Vec::new(alloc);
    for cell in 0..n.len() {
        let (lower, upper) = Enc::ppm(&n.get(cell), &whole);
        cells.push((lower, upper))?;
    }
    Ok(Marginal::Pairs(Pairs::new(cells)))
}

// All entries together.
fn whole_of(n: &Row) -> Enc
    requires few { length n.now ≤ 512 }
    requires reach { greatest_reach n.now < 2 ^ 20 }
    ensures value { result ≡ whole_of n.now }
    ensures entries { AreEntries n.now }
{
    let mut whole = Enc::zero();
    for cell in 0..n.len() {
        whole = whole.plus(&n.get(cell));
    }
    whole
}
