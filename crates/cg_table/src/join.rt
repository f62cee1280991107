//! One table after another, row by row: each row of the second, times one entry of the first, is added to a row of sums.
//! The terms of a sum come in the order of the formula, so its bits are the formula's.
ghost use Rattle.std.specs.Prelude.{◌≡◌, ◌+◌, ◌-◌, ◌*◌, ◌++◌, ◌^◌, ◌<◌, ◌≤◌, ℕ, OnOk, length, replicate, All, slice_index_or};
ghost use Rattle.cg_enc.specs.Enclosure.{exact_zero, IsExponent};
ghost use Rattle.cg_enc.specs.Rounding.{plus, times};
ghost use Rattle.cg_table.specs.Formulas.{then_entry};
ghost use Rattle.cg_table.specs.Live.{live_rows};
ghost use Rattle.cg_table.specs.Table.{entry, table_reach};

use crate::steps::Steps;
use crate::tri::{Tri, start_of};
use cg_enc::Enc;
use cg_num::NoMemory;
use std::sync::ledger::Ledger;

/// Puts `count` zeros behind the entries.
pub fn push_zeros(entries: &mut Vec<Enc>, count: usize) -> Result<(), NoMemory>
    ensures { OnOk result (entries.new.items ≡ entries.old.items ++ replicate count exact_zero) }
{
    for _ in 0..count {
        entries.push(Enc::zero())?;
    }
    Ok(())
}

// Row `a` of what `t` has after what `p` has, onto the zeros from `base` on.
pub(crate) fn join_row<L: Ledger>(
    sums: &mut [Enc],
    base: usize,
    p: &Tri,
    t: &Tri,
    a: usize,
    steps: &mut Steps<L>,
)
    requires row { a < live_rows p.now }
    requires cells { p.now.cells ≡ t.now.cells }
    requires reach { table_reach p.now + table_reach t.now < 2 ^ 20 }
    requires width { length sums.old ≡ base + (p.now.cells - a) }
    requires zeros { (i : ℕ) → i < p.now.cells - a → slice_index_or sums.old (base + i) exact_zero ≡ exact_zero }
    ensures width { length sums.new ≡ length sums.old }
    ensures before { (i : ℕ) → i < base →
        slice_index_or sums.new i exact_zero ≡ slice_index_or sums.old i exact_zero }
    ensures row { (i : ℕ) → i < p.now.cells - a →
        slice_index_or sums.new (base + i) exact_zero ≡ then_entry (entry p.now) (entry t.now) a (a + i) }
    ensures ticks { 2 * steps.new ≤ 2 * steps.old + (p.now.cells - a) * (p.now.cells - a + 1) }
{
    let (left, right) = (p.items(), t.items());
    let cells = p.cells();
    let own = start_of(cells, a, left.len());
    let mut begin = start_of(cells, a.min(t.live()), right.len());
    for c in a..t.live() {
        let factor = left[own + (c - a)];
        if !factor.is_zero() {
            add_row(
                &factor,
                &right[begin..begin + (cells - c)],
                sums,
                base + (c - a),
                steps,
            );
        }
        begin += cells - c;
    }
}

/// Adds, from the sum at `from` on, the products of a factor and the entries of a row.
#[inline]
pub fn add_row<L: Ledger>(
    factor: &Enc,
    row: &[Enc],
    sums: &mut [Enc],
    from: usize,
    steps: &mut Steps<L>,
)
    requires width { from + length row.now ≡ length sums.old }
    requires factor { IsExponent (2 ^ 52) factor.now.exp }
    requires row { All (λ e. IsExponent (2 ^ 52) e.exp) row.now }
    requires sums { (k : ℕ) → k < length row.now → IsExponent (2 ^ 55) (slice_index_or sums.old (from + k) exact_zero).exp }
    ensures width { length sums.new ≡ length sums.old }
    ensures before { (i : ℕ) → i < from →
        slice_index_or sums.new i exact_zero ≡ slice_index_or sums.old i exact_zero }
    ensures added { (k : ℕ) → k < length row.now → slice_index_or sums.new (from + k) exact_zero
        ≡ plus (slice_index_or sums.old (from + k) exact_zero) (times factor.now (slice_index_or row.now k exact_zero)) }
    ensures ticks { steps.new ≡ steps.old + length row.now }
{
    for k in 0..row.len() {
        steps.tick();
        let sum = sums[from + k];
        let product = factor.times(&row[k]);
        sums[from + k] = sum.plus(&product);
    }
}
