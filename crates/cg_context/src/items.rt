//! The context of what precedes an item of a Sequence, row by row: each column of the item's table, times one
//! coefficient, is added to a row of sums. The terms of a sum come in the order of the formula, so its bits are the formula's.
ghost use Rattle.std.specs.Prelude.{◌≡◌, ◌+◌, ◌-◌, ◌*◌, ◌++◌, ◌^◌, ◌<◌, ◌≤◌, ℕ, IfOk, OnOk, length, map, All};
ghost use Rattle.std.specs.Prelude.{slice_index_or};
ghost use Rattle.std.specs.List.{range_with_len};
ghost use Rattle.cg_enc.specs.Enclosure.{exact_zero, IsExponent};
ghost use Rattle.cg_enc.specs.Rounding.{plus, times};
ghost use Rattle.cg_table.specs.Live.{live_rows};
ghost use Rattle.cg_table.specs.Table.{IsTable, EnclosesTable, entry, row, table_loss, table_reach};
ghost use Rattle.cg_path.specs.Contexts as exact;
ghost use Rattle.cg_context.specs.Columns.{by_columns};
ghost use Rattle.cg_context.specs.Formulas.{back_entry, back_of};

use crate::context::Context;
use cg_enc::Enc;
use cg_num::NoMemory;
use cg_table::{Steps, Tri, push_zeros};
use std::sync::ledger::Ledger;

/// The context of what precedes an item of a Sequence, by the context of both and the item's table: at `(a, c)` the sum
/// for `d` from the youngest cell down to `c` of the coefficient at `(a, d)`, times what begins at `c` and reaches `d`.
pub fn back<L: Ledger>(v: &Context, t: &Tri, steps: &mut Steps<L>) -> Result<Context, NoMemory>
    requires cells { v.now.cells ≡ t.now.cells }
    requires reach { table_reach v.now + table_reach t.now < 2 ^ 20 }
    ensures value { IfOk result (λ r. r ≡ back_of v.now t.now) }
    ensures encloses { (x y : ℕ → ℕ → ℕ) (d e : ℕ) → 0 < d → 0 < e →
        EnclosesTable v.now x d → EnclosesTable t.now y e →
        IfOk result (λ r. EnclosesTable r (exact.back v.now.cells x y) (d * e)) }
    ensures loss { v.now.cells ≤ 512 →
        IfOk result (λ r. table_loss r ≤ table_loss v.now + table_loss t.now + 2 ^ 13) }
    ensures reach { v.now.cells ≤ 512 →
        IfOk result (λ r. table_reach r ≤ table_reach v.now + table_reach t.now + 1) }
    ensures ticks { 6 * steps.new ≤ 6 * steps.old + v.now.cells * (v.now.cells + 1) * (v.now.cells + 2) }
{
    filled_back(v, t, steps)
}

fn filled_back<L: Ledger>(v: &Context, t: &Tri, steps: &mut Steps<L>) -> Result<Context, NoMemory>
    requires cells { v.now.cells ≡ t.now.cells }
    requires reach { table_reach v.now + table_reach t.now < 2 ^ 20 }
    ensures value { IfOk result (λ r. r ≡ back_of v.now t.now) }
    ensures operands { IsTable v.now × IsTable t.now }
    ensures ticks { 6 * steps.new ≤ 6 * steps.old + v.now.cells * (v.now.cells + 1) * (v.now.cells + 2) }
{
    let cells = v.cells();
    let live = v.live().min(t.live());
    let columns = columns_of(t)?;
    let mut entries = Vec::new(v.table().allocator());
    for a in 0..live {
        push_back(&mut entries, v, t, &columns, a, steps)?;
    }
    Ok(Context::of_rows(cells, live, entries))
}

fn columns_of(t: &Tri) -> Result<Vec<Enc>, NoMemory>
    ensures { IfOk result (λ cs. cs.items ≡ by_columns (entry t.now) t.now.cells) }
{
    let mut entries = Vec::new(t.allocator());
    for d in 0..t.cells() {
        push_column(&mut entries, t, d)?;
    }
    Ok(entries)
}

fn push_column(entries: &mut Vec<Enc>, t: &Tri, d: usize) -> Result<(), NoMemory>
    requires column { d < t.now.cells }
    requires few { t.now.cells < 2 ^ 33 }
    ensures { OnOk result (entries.new.items ≡ entries.old.items
        ++ map (λ c. entry t.now c d) (range_with_len 0 (d + 1))) }
{
    for c in 0..d + 1 {
        entries.push(t.get(c, d))?;
    }
    Ok(())
}

fn push_back<L: Ledger>(
    entries: &mut Vec<Enc>,
    v: &Context,
    t: &Tri,
    columns: &[Enc],
    a: usize,
    steps: &mut Steps<L>,
) -> Result<(), NoMemory>
    requires row { a < v.now.cells }
    requires live { a < live_rows t.now }
    requires cells { v.now.cells ≡ t.now.cells }
    requires reach { table_reach v.now + table_reach t.now < 2 ^ 20 }
    requires columns { columns.now ≡ by_columns (entry t.now) t.now.cells }
    ensures row { OnOk result (entries.new.items ≡ entries.old.items
        ++ row v.now.cells (back_entry v.now.cells (entry v.now) (entry t.now)) a) }
    ensures ticks { 2 * steps.new ≤ 2 * steps.old + (v.now.cells - a) * (v.now.cells - a + 1) }
{
    let base = entries.len();
    push_zeros(entries, v.cells() - a)?;
    add_columns(entries, base, v, t, columns, a, steps);
    Ok(())
}

// Row `a`, onto the zeros from `base` on. Behind the table's live rows a column has zeros.
fn add_columns<L: Ledger>(
    sums: &mut [Enc],
    base: usize,
    v: &Context,
    t: &Tri,
    columns: &[Enc],
    a: usize,
    steps: &mut Steps<L>,
)
    requires row { a < v.now.cells }
    requires live { a < live_rows t.now }
    requires cells { v.now.cells ≡ t.now.cells }
    requires reach { table_reach v.now + table_reach t.now < 2 ^ 20 }
    requires columns { columns.now ≡ by_columns (entry t.now) t.now.cells }
    requires width { length sums.old ≡ base + (v.now.cells - a) }
    requires zeros { (i : ℕ) → i < v.now.cells - a → slice_index_or sums.old (base + i) exact_zero ≡ exact_zero }
    ensures width { length sums.new ≡ length sums.old }
    ensures before { (i : ℕ) → i < base →
        slice_index_or sums.new i exact_zero ≡ slice_index_or sums.old i exact_zero }
    ensures row { (i : ℕ) → i < v.now.cells - a → slice_index_or sums.new (base + i) exact_zero
        ≡ back_entry v.now.cells (entry v.now) (entry t.now) a (a + i) }
    ensures ticks { 2 * steps.new ≤ 2 * steps.old + (v.now.cells - a) * (v.now.cells - a + 1) }
{
    let (cells, live) = (v.cells(), t.live());
    let mut begin = columns.len();
    for i in 0..cells - a {
        let d = cells - 1 - i;
        begin -= d + 1;
        let factor = v.get(a, d);
        if !factor.is_zero() {
            add_column(
                &factor,
                &columns[begin + a..begin + live.min(d + 1)],
                sums,
                base,
                steps,
            );
        }
    }
}

// Adds, from the sum at `from` on, the products of a factor and the entries of a column.
#[inline]
fn add_column<L: Ledger>(
    factor: &Enc,
    column: &[Enc],
    sums: &mut [Enc],
    from: usize,
    steps: &mut Steps<L>,
)
    requires width { from + length column.now ≤ length sums.old }
    requires factor { IsExponent (2 ^ 52) factor.now.exp }
    requires column { All (λ e. IsExponent (2 ^ 52) e.exp) column.now }
    requires sums { (k : ℕ) → k < length column.now →
        IsExponent (2 ^ 55) (slice_index_or sums.old (from + k) exact_zero).exp }
    ensures width { length sums.new ≡ length sums.old }
    ensures before { (i : ℕ) → i < from →
        slice_index_or sums.new i exact_zero ≡ slice_index_or sums.old i exact_zero }
    ensures added { (k : ℕ) → k < length column.now → slice_index_or sums.new (from + k) exact_zero
        ≡ plus (slice_index_or sums.old (from + k) exact_zero)
        (times factor.now (slice_index_or column.now k exact_zero)) }
    ensures behind { (k : ℕ) → length column.now ≤ k →
        slice_index_or sums.new (from + k) exact_zero ≡ slice_index_or sums.old (from + k) exact_zero }
    ensures ticks { steps.new ≡ steps.old + length column.now }
{
    for k in 0..column.len() {
        steps.tick();
        let sum = sums[from + k];
        let product = factor.times(&column[k]);
        sums[from + k] = sum.plus(&product);
    }
}
