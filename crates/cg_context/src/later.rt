//! The context of what precedes an event of a Sequence.
ghost use Rattle.std.specs.Prelude.{◌≡◌, ◌+◌, ◌-◌, ◌*◌, ◌++◌, ◌^◌, ◌<◌, ◌≤◌, ℕ, IfOk, OnOk, length, slice_index_or};
ghost use Rattle.cg_enc.specs.Enclosure.{exact_zero};
ghost use Rattle.cg_table.specs.Live.{live_rows};
ghost use Rattle.cg_table.specs.Losses.{greatest_loss, greatest_reach};
ghost use Rattle.cg_table.specs.Row.{AreEntries};
ghost use Rattle.cg_table.specs.Table.{IsTable, EnclosesRow, EnclosesTable, entry, row, row_entry};
ghost use Rattle.cg_table.specs.Table.{start, table_loss, table_reach};
ghost use Rattle.cg_path.specs.Contexts as exact;
ghost use Rattle.cg_context.specs.Formulas.{back_row_entry, back_row_of};

use crate::context::Context;
use cg_enc::Enc;
use cg_num::NoMemory;
use cg_table::{Row, Steps, push_zeros};
use std::sync::ledger::Ledger;

/// The context of what precedes an event of a Sequence, by the context of both: at `(a, c)` the sum for `d` from the
/// youngest cell down to `c` of the coefficient at `(a, d)`, times the event's weight at `d`.
pub fn back_row<L: Ledger>(v: &Context, w: &Row, steps: &mut Steps<L>) -> Result<Context, NoMemory>
    requires cells { v.now.cells ≡ length w.now }
    requires reach { table_reach v.now + greatest_reach w.now < 2 ^ 20 }
    ensures value { IfOk result (λ r. r ≡ back_row_of v.now w.now) }
    ensures encloses { (x : ℕ → ℕ → ℕ) (y : ℕ → ℕ) (d e : ℕ) → 0 < d → 0 < e →
        EnclosesTable v.now x d → EnclosesRow w.now y e →
        IfOk result (λ r. EnclosesTable r (exact.back_row v.now.cells x y) (d * e)) }
    ensures loss { v.now.cells ≤ 512 →
        IfOk result (λ r. table_loss r ≤ table_loss v.now + greatest_loss w.now + 2 ^ 13) }
    ensures reach { v.now.cells ≤ 512 →
        IfOk result (λ r. table_reach r ≤ table_reach v.now + greatest_reach w.now + 1) }
    ensures ticks { OnOk result (steps.new ≡ steps.old + start v.now.cells (live_rows v.now)) }
    ensures few { steps.new ≤ steps.old + start v.now.cells (live_rows v.now) }
    ensures at_most { 2 * steps.new ≤ 2 * steps.old + v.now.cells * (v.now.cells + 1) }
{
    filled_back_row(v, w, steps)
}

fn filled_back_row<L: Ledger>(
    v: &Context,
    w: &Row,
    steps: &mut Steps<L>,
) -> Result<Context, NoMemory>
    requires cells { v.now.cells ≡ length w.now }
    requires reach { table_reach v.now + greatest_reach w.now < 2 ^ 20 }
    ensures value { IfOk result (λ r. r ≡ back_row_of v.now w.now) }
    ensures operands { IsTable v.now × AreEntries w.now }
    ensures ticks { OnOk result (steps.new ≡ steps.old + start v.now.cells (live_rows v.now)) }
    ensures few { steps.new ≤ steps.old + start v.now.cells (live_rows v.now) }
{
    let cells = w.len();
    let live = v.live();
    let mut entries = Vec::new(v.table().allocator());
    for a in 0..live {
        push_back_row(&mut entries, v, w, a, steps)?;
    }
    Ok(Context::of_rows(cells, live, entries))
}

fn push_back_row<L: Ledger>(
    entries: &mut Vec<Enc>,
    v: &Context,
    w: &Row,
    a: usize,
    steps: &mut Steps<L>,
) -> Result<(), NoMemory>
    requires row { a < v.now.cells }
    requires cells { v.now.cells ≡ length w.now }
    requires reach { table_reach v.now + greatest_reach w.now < 2 ^ 20 }
    ensures row { OnOk result (entries.new.items ≡ entries.old.items
        ++ row v.now.cells (back_row_entry v.now.cells (entry v.now) (row_entry w.now)) a) }
    ensures ticks { OnOk result (steps.new ≡ steps.old + (v.now.cells - a)) }
    ensures at_most { steps.new ≤ steps.old + (v.now.cells - a) }
{
    let base = entries.len();
    push_zeros(entries, v.cells() - a)?;
    fall(entries, base, v, w, a, steps);
    Ok(())
}

// Row `a`, over the zeros from `base` on.
fn fall<L: Ledger>(
    sums: &mut [Enc],
    base: usize,
    v: &Context,
    w: &Row,
    a: usize,
    steps: &mut Steps<L>,
)
    requires row { a < v.now.cells }
    requires cells { v.now.cells ≡ length w.now }
    requires reach { table_reach v.now + greatest_reach w.now < 2 ^ 20 }
    requires width { length sums.old ≡ base + (v.now.cells - a) }
    ensures width { length sums.new ≡ length sums.old }
    ensures before { (i : ℕ) → i < base →
        slice_index_or sums.new i exact_zero ≡ slice_index_or sums.old i exact_zero }
    ensures row { (i : ℕ) → i < v.now.cells - a → slice_index_or sums.new (base + i) exact_zero
        ≡ back_row_entry v.now.cells (entry v.now) (row_entry w.now) a (a + i) }
    ensures ticks { steps.new ≡ steps.old + (v.now.cells - a) }
{
    let cells = w.len();
    let mut sum = Enc::zero();
    for i in 0..v.cells() - a {
        let d = cells - 1 - i;
        steps.tick();
        sum = sum.plus(&v.get(a, d).times(&w.get(d)));
        sums[base + (d - a)] = sum;
    }
}
