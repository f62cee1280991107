//! Rows of sums, what they grow by, and rows one behind the other.
ghost use Rattle.std.specs.Prelude.{◌≡◌, ◌+◌, ◌^◌, ◌<◌, ◌≤◌, ℕ, IfOk, All, length, replicate, slice_index_or, vec_items};
ghost use Rattle.std.specs.List.{flat_map};
ghost use Rattle.cg_enc.specs.Enclosure.{exact_zero, IsExponent};
ghost use Rattle.cg_enc.specs.Rounding.{plus, times};

use cg_enc::Enc;
use cg_num::NoMemory;
use cg_table::push_zeros;
use std::alloc::Global;

/// This many zeros.
pub(crate) fn zeros(alloc: Global, count: usize) -> Result<Vec<Enc>, NoMemory>
    ensures { IfOk result (λ sums. sums.items ≡ replicate count exact_zero) }
{
    let mut sums = Vec::new(alloc);
    push_zeros(&mut sums, count)?;
    Ok(sums)
}

/// Adds, from the sum at `from` on, the products of a factor and these entries.
#[inline]
pub(crate) fn add_terms(factor: &Enc, entries: &[Enc], sums: &mut [Enc], from: usize)
    requires width { from + length entries.now ≤ length sums.old }
    requires factor { IsExponent (2 ^ 52) factor.now.exp }
    requires entries { All (λ e. IsExponent (2 ^ 52) e.exp) entries.now }
    requires sums { (k : ℕ) → k < length entries.now →
        IsExponent (2 ^ 55) (slice_index_or sums.old (from + k) exact_zero).exp }
    ensures width { length sums.new ≡ length sums.old }
    ensures before { (i : ℕ) → i < from →
        slice_index_or sums.new i exact_zero ≡ slice_index_or sums.old i exact_zero }
    ensures added { (k : ℕ) → k < length entries.now → slice_index_or sums.new (from + k) exact_zero
        ≡ plus (slice_index_or sums.old (from + k) exact_zero)
        (times factor.now (slice_index_or entries.now k exact_zero)) }
    ensures behind { (k : ℕ) → length entries.now ≤ k →
        slice_index_or sums.new (from + k) exact_zero ≡ slice_index_or sums.old (from + k) exact_zero }
{
    for k in 0..entries.len() {
        let sum = sums[from + k];
        let product = factor.times(&entries[k]);
        sums[from + k] = sum.plus(&product);
    }
}

/// The entries of the rows, one row behind the other.
pub(crate) fn joined(alloc: Global, rows: &[Vec<Enc>]) -> Result<Vec<Enc>, NoMemory>
    ensures { IfOk result (λ entries. entries.items ≡ flat_map vec_items rows.now) }
{
    let mut entries = Vec::new(alloc);
    for row in rows {
        entries.extend_from_slice(row)?;
    }
    Ok(entries)
}
