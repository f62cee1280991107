//! Tables of events in order.
ghost use Rattle.std.specs.Prelude.{◌≡◌, ◌+◌, ◌-◌, ◌*◌, ◌++◌, ◌^◌, ◌<◌, ◌≤◌, ℕ, IfOk, OnOk, length};
ghost use Rattle.cg_table.specs.Exact.{exact_then, exact_then_row};
ghost use Rattle.cg_table.specs.Formulas.{then_entry, then_of, then_row_entry, then_row_of};
ghost use Rattle.cg_table.specs.Live.{live_rows};
ghost use Rattle.cg_table.specs.Losses.{greatest_loss, greatest_reach};
ghost use Rattle.cg_table.specs.Row.{AreEntries};
ghost use Rattle.cg_table.specs.Table.{IsTable, EnclosesRow, EnclosesTable, entry, row, row_entry};
ghost use Rattle.cg_table.specs.Table.{start, table_loss, table_reach};

use crate::join::{join_row, push_zeros};
use crate::row::Row;
use crate::steps::Steps;
use crate::tri::Tri;
use cg_enc::Enc;
use cg_num::NoMemory;
use std::sync::ledger::Ledger;

/// The table of an event after what a table has: at `(a, b)` what begins at `a` and reaches `b` at the latest, times the
/// event's weight at `b`. It takes a product for each entry of the live rows.
pub fn then_row<L: Ledger>(p: &Tri, w: &Row, steps: &mut Steps<L>) -> Result<Tri, NoMemory>
    requires cells { p.now.cells ≡ length w.now }
    requires reach { table_reach p.now + greatest_reach w.now < 2 ^ 20 }
    ensures value { IfOk result (λ t. t ≡ then_row_of p.now w.now) }
    ensures encloses { (x : ℕ → ℕ → ℕ) (y : ℕ → ℕ) (d e : ℕ) → 0 < d →
        EnclosesTable p.now x d → EnclosesRow w.now y e →
        IfOk result (λ t. EnclosesTable t (exact_then_row x y) (d * e)) }
    ensures loss { p.now.cells ≤ 512 →
        IfOk result (λ t. table_loss t ≤ table_loss p.now + greatest_loss w.now + 2 ^ 13) }
    ensures reach { p.now.cells ≤ 512 →
        IfOk result (λ t. table_reach t ≤ table_reach p.now + greatest_reach w.now + 1) }
    ensures ticks { OnOk result (steps.new ≡ steps.old + start p.now.cells (live_rows p.now)) }
    ensures few { steps.new ≤ steps.old + start p.now.cells (live_rows p.now) }
    ensures at_most { 2 * steps.new ≤ 2 * steps.old + p.now.cells * (p.now.cells + 1) }
{
    filled_then_row(p, w, steps)
}

fn filled_then_row<L: Ledger>(p: &Tri, w: &Row, steps: &mut Steps<L>) -> Result<Tri, NoMemory>
    requires cells { p.now.cells ≡ length w.now }
    requires reach { table_reach p.now + greatest_reach w.now < 2 ^ 20 }
    ensures value { IfOk result (λ t. t ≡ then_row_of p.now w.now) }
    ensures operands { IsTable p.now × AreEntries w.now }
    ensures ticks { OnOk result (steps.new ≡ steps.old + start p.now.cells (live_rows p.now)) }
    ensures few { steps.new ≤ steps.old + start p.now.cells (live_rows p.now) }
{
    let (cells, live) = (w.len(), p.live());
    let mut entries = Vec::new(p.allocator());
    for a in 0..live {
        push_then_row(&mut entries, p, w, a, steps)?;
    }
    Ok(Tri::of_rows(cells, live, entries))
}

fn push_then_row<L: Ledger>(
    entries: &mut Vec<Enc>,
    p: &Tri,
    w: &Row,
    a: usize,
    steps: &mut Steps<L>,
) -> Result<(), NoMemory>
    requires row { a < p.now.cells }
    requires cells { p.now.cells ≡ length w.now }
    requires reach { table_reach p.now + greatest_reach w.now < 2 ^ 20 }
    ensures row { OnOk result (entries.new.items ≡ entries.old.items
        ++ row p.now.cells (then_row_entry (entry p.now) (row_entry w.now)) a) }
    ensures ticks { OnOk result (steps.new ≡ steps.old + (p.now.cells - a)) }
    ensures at_most { steps.new ≤ steps.old + (p.now.cells - a) }
{
    let mut sum = Enc::zero();
    for b in a..p.cells() {
        sum = sum.plus(&p.get(a, b));
        steps.tick();
        entries.push(sum.times(&w.get(b)))?;
    }
    Ok(())
}

/// The table of what a second table has after what a first one has: at `(a, b)` the sum for `c` from `a` to `b` of what
/// begins at `a` and reaches `c`, times what begins at `c` and reaches `b`.
pub fn then<L: Ledger>(p: &Tri, t: &Tri, steps: &mut Steps<L>) -> Result<Tri, NoMemory>
    requires cells { p.now.cells ≡ t.now.cells }
    requires reach { table_reach p.now + table_reach t.now < 2 ^ 20 }
    ensures value { IfOk result (λ r. r ≡ then_of p.now t.now) }
    ensures encloses { (x y : ℕ → ℕ → ℕ) (d e : ℕ) → 0 < d → 0 < e →
        EnclosesTable p.now x d → EnclosesTable t.now y e →
        IfOk result (λ r. EnclosesTable r (exact_then x y) (d * e)) }
    ensures loss { p.now.cells ≤ 512 →
        IfOk result (λ r. table_loss r ≤ table_loss p.now + table_loss t.now + 2 ^ 13) }
    ensures reach { p.now.cells ≤ 512 →
        IfOk result (λ r. table_reach r ≤ table_reach p.now + table_reach t.now + 1) }
    ensures ticks { 6 * steps.new ≤ 6 * steps.old + p.now.cells * (p.now.cells + 1) * (p.now.cells + 2) }
{
    filled_then(p, t, steps)
}

fn filled_then<L: Ledger>(p: &Tri, t: &Tri, steps: &mut Steps<L>) -> Result<Tri, NoMemory>
    requires cells { p.now.cells ≡ t.now.cells }
    requires reach { table_reach p.now + table_reach t.now < 2 ^ 20 }
    ensures value { IfOk result (λ r. r ≡ then_of p.now t.now) }
    ensures operands { IsTable p.now × IsTable t.now }
    ensures ticks { 6 * steps.new ≤ 6 * steps.old + p.now.cells * (p.now.cells + 1) * (p.now.cells + 2) }
{
    let (cells, live) = (t.cells(), p.live());
    let mut entries = Vec::new(p.allocator());
    for a in 0..live {
        push_then(&mut entries, p, t, a, steps)?;
    }
    Ok(Tri::of_rows(cells, live, entries))
}

fn push_then<L: Ledger>(
    entries: &mut Vec<Enc>,
    p: &Tri,
    t: &Tri,
    a: usize,
    steps: &mut Steps<L>,
) -> Result<(), NoMemory>
    requires row { a < live_rows p.now }
    requires cells { p.now.cells ≡ t.now.cells }
    requires reach { table_reach p.now + table_reach t.now < 2 ^ 20 }
    ensures row { OnOk result (entries.new.items ≡ entries.old.items
        ++ row p.now.cells (then_entry (entry p.now) (entry t.now)) a) }
    ensures ticks { 2 * steps.new ≤ 2 * steps.old + (p.now.cells - a) * (p.now.cells - a + 1) }
{
    let base = entries.len();
    push_zeros(entries, p.cells() - a)?;
    join_row(entries, base, p, t, a, steps);
    Ok(())
}
