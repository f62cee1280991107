//! The context of an item of a Sequence, row by row: part of a row of the context, times one entry of the table, is
//! added to a row of sums. The terms of a sum come in the order of the formula, so its bits are the formula's.
ghost use Rattle.std.specs.Prelude.{◌≡◌, ◌+◌, ◌-◌, ◌*◌, ◌++◌, ◌^◌, ◌<◌, ◌≤◌, ℕ, IfOk, OnOk, length, slice_index_or};
ghost use Rattle.cg_enc.specs.Enclosure.{exact_zero};
ghost use Rattle.cg_table.specs.Table.{IsTable, EnclosesTable, entry, row, table_loss, table_reach};
ghost use Rattle.cg_path.specs.Contexts as exact;
ghost use Rattle.cg_context.specs.Formulas.{into_sequence_entry, into_sequence_of};

use crate::context::Context;
use cg_enc::Enc;
use cg_num::NoMemory;
use cg_table::{Steps, Tri, add_row, place_of, push_zeros};
use std::sync::ledger::Ledger;

/// The context of an item of a Sequence, by the table of what precedes it and the context of both: at `(c, d)` the sum
/// for `a` from the oldest cell to `c` of what begins at `a` and reaches `c`, times the coefficient at `(a, d)`.
///
/// It goes over the rows that are live in both.
pub fn into_sequence<L: Ledger>(
    p: &Tri,
    v: &Context,
    steps: &mut Steps<L>,
) -> Result<Context, NoMemory>
    requires cells { p.now.cells ≡ v.now.cells }
    requires reach { table_reach p.now + table_reach v.now < 2 ^ 20 }
    ensures value { IfOk result (λ r. r ≡ into_sequence_of p.now v.now) }
    ensures encloses { (y z : ℕ → ℕ → ℕ) (d e : ℕ) → 0 < d → 0 < e →
        EnclosesTable p.now y d → EnclosesTable v.now z e →
        IfOk result (λ r. EnclosesTable r (exact.into_sequence y z) (d * e)) }
    ensures loss { p.now.cells ≤ 512 →
        IfOk result (λ r. table_loss r ≤ table_loss p.now + table_loss v.now + 2 ^ 13) }
    ensures reach { p.now.cells ≤ 512 →
        IfOk result (λ r. table_reach r ≤ table_reach p.now + table_reach v.now + 1) }
    ensures ticks { 6 * steps.new ≤ 6 * steps.old + p.now.cells * (p.now.cells + 1) * (p.now.cells + 2) }
{
    filled_sequence(p, v, steps)
}

fn filled_sequence<L: Ledger>(
    p: &Tri,
    v: &Context,
    steps: &mut Steps<L>,
) -> Result<Context, NoMemory>
    requires cells { p.now.cells ≡ v.now.cells }
    requires reach { table_reach p.now + table_reach v.now < 2 ^ 20 }
    ensures value { IfOk result (λ r. r ≡ into_sequence_of p.now v.now) }
    ensures operands { IsTable p.now × IsTable v.now }
    ensures ticks { 6 * steps.new ≤ 6 * steps.old + p.now.cells * (p.now.cells + 1) * (p.now.cells + 2) }
{
    let cells = p.cells();
    let mut entries = Vec::new(p.allocator());
    for c in 0..v.cells() {
        push_sequence(&mut entries, p, v, c, steps)?;
    }
    Ok(Context::of_rows(cells, cells, entries))
}

fn push_sequence<L: Ledger>(
    entries: &mut Vec<Enc>,
    p: &Tri,
    v: &Context,
    c: usize,
    steps: &mut Steps<L>,
) -> Result<(), NoMemory>
    requires row { c < p.now.cells }
    requires cells { p.now.cells ≡ v.now.cells }
    requires reach { table_reach p.now + table_reach v.now < 2 ^ 20 }
    ensures row { OnOk result (entries.new.items ≡ entries.old.items
        ++ row p.now.cells (into_sequence_entry (entry p.now) (entry v.now)) c) }
    ensures ticks { steps.new ≤ steps.old + (c + 1) * (p.now.cells - c) }
{
    let base = entries.len();
    push_zeros(entries, p.cells() - c)?;
    add_rows(entries, base, p, v, c, steps);
    Ok(())
}

// Row `c`, onto the zeros from `base` on.
fn add_rows<L: Ledger>(
    sums: &mut [Enc],
    base: usize,
    p: &Tri,
    v: &Context,
    c: usize,
    steps: &mut Steps<L>,
)
    requires row { c < p.now.cells }
    requires cells { p.now.cells ≡ v.now.cells }
    requires reach { table_reach p.now + table_reach v.now < 2 ^ 20 }
    requires width { length sums.old ≡ base + (p.now.cells - c) }
    requires zeros { (i : ℕ) → i < p.now.cells - c → slice_index_or sums.old (base + i) exact_zero ≡ exact_zero }
    ensures width { length sums.new ≡ length sums.old }
    ensures before { (i : ℕ) → i < base →
        slice_index_or sums.new i exact_zero ≡ slice_index_or sums.old i exact_zero }
    ensures row { (i : ℕ) → i < p.now.cells - c → slice_index_or sums.new (base + i) exact_zero
        ≡ into_sequence_entry (entry p.now) (entry v.now) c (c + i) }
    ensures ticks { steps.new ≤ steps.old + (c + 1) * (p.now.cells - c) }
{
    let cells = p.cells();
    let live = p.live().min(v.live());
    let right = v.table().items();
    for a in 0..live.min(c + 1) {
        let factor = p.get(a, c);
        if !factor.is_zero() {
            let begin = place_of(cells, a, c, right.len());
            add_row(
                &factor,
                &right[begin..begin + (cells - c)],
                sums,
                base,
                steps,
            );
        }
    }
}
