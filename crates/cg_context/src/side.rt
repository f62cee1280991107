//! The context of a member of a Phase.
ghost use Rattle.std.specs.Prelude.{◌≡◌, ◌+◌, ◌-◌, ◌*◌, ◌++◌, ◌^◌, ◌<◌, ◌≤◌, ℕ, IfOk, OnOk, length, slice_index_or};
ghost use Rattle.cg_enc.specs.Enclosure.{exact_zero};
ghost use Rattle.cg_enc.specs.Rounding.{plus, times};
ghost use Rattle.cg_table.specs.Formulas.{cumulated};
ghost use Rattle.cg_table.specs.Live.{live_rows};
ghost use Rattle.cg_table.specs.Table.{IsTable, EnclosesTable, entry, row};
ghost use Rattle.cg_table.specs.Table.{start, table_loss, table_reach};
ghost use Rattle.cg_path.specs.Contexts as exact;
ghost use Rattle.cg_context.specs.Formulas.{into_phase_entry, into_phase_of, sum_on};

use crate::context::Context;
use cg_enc::Enc;
use cg_num::NoMemory;
use cg_table::{Steps, Tri};
use std::sync::ledger::Ledger;

/// The context of a member of a Phase, by that of the Phase and the table of the other members: at `(a, d)` the member
/// reaches `d` and the others reach no further, or the others reach a later cell.
///
/// It takes two products for each entry of the live rows of `x`.
pub fn into_phase<L: Ledger>(
    x: &Context,
    others: &Tri,
    steps: &mut Steps<L>,
) -> Result<Context, NoMemory>
    requires cells { x.now.cells ≡ others.now.cells }
    requires reach { table_reach x.now + table_reach others.now < 2 ^ 20 }
    ensures value { IfOk result (λ r. r ≡ into_phase_of x.now others.now) }
    ensures encloses { (y z : ℕ → ℕ → ℕ) (d e : ℕ) → 0 < d → 0 < e →
        EnclosesTable x.now y d → EnclosesTable others.now z e →
        IfOk result (λ r. EnclosesTable r (exact.into_phase x.now.cells y z) (d * e)) }
    ensures loss { x.now.cells ≤ 512 →
        IfOk result (λ r. table_loss r ≤ table_loss x.now + table_loss others.now + 2 ^ 13) }
    ensures reach { x.now.cells ≤ 512 →
        IfOk result (λ r. table_reach r ≤ table_reach x.now + table_reach others.now + 1) }
    ensures ticks { OnOk result (steps.new ≡ steps.old + 2 * start x.now.cells (live_rows x.now)) }
    ensures few { steps.new ≤ steps.old + 2 * start x.now.cells (live_rows x.now) }
    ensures at_most { steps.new ≤ steps.old + x.now.cells * (x.now.cells + 1) }
{
    filled_phase(x, others, steps)
}

fn filled_phase<L: Ledger>(
    x: &Context,
    others: &Tri,
    steps: &mut Steps<L>,
) -> Result<Context, NoMemory>
    requires cells { x.now.cells ≡ others.now.cells }
    requires reach { table_reach x.now + table_reach others.now < 2 ^ 20 }
    ensures value { IfOk result (λ r. r ≡ into_phase_of x.now others.now) }
    ensures operands { IsTable x.now × IsTable others.now }
    ensures ticks { OnOk result (steps.new ≡ steps.old + 2 * start x.now.cells (live_rows x.now)) }
    ensures few { steps.new ≤ steps.old + 2 * start x.now.cells (live_rows x.now) }
{
    let (cells, live) = (others.cells(), x.live());
    let mut entries = Vec::new(others.allocator());
    for a in 0..live {
        push_phase(&mut entries, x, others, a, steps)?;
    }
    Ok(Context::of_rows(cells, live, entries))
}

fn push_phase<L: Ledger>(
    entries: &mut Vec<Enc>,
    x: &Context,
    others: &Tri,
    a: usize,
    steps: &mut Steps<L>,
) -> Result<(), NoMemory>
    requires row { a < x.now.cells }
    requires cells { x.now.cells ≡ others.now.cells }
    requires reach { table_reach x.now + table_reach others.now < 2 ^ 20 }
    ensures row { OnOk result (entries.new.items ≡ entries.old.items
        ++ row x.now.cells (into_phase_entry x.now.cells (entry x.now) (entry others.now)) a) }
    ensures ticks { OnOk result (steps.new ≡ steps.old + 2 * (x.now.cells - a)) }
    ensures at_most { steps.new ≤ steps.old + 2 * (x.now.cells - a) }
{
    let base = entries.len();
    push_own(entries, x, others, a, steps)?;
    add_later(entries, base, x, others, a, steps);
    Ok(())
}

// The member reaches the cell itself.
fn push_own<L: Ledger>(
    entries: &mut Vec<Enc>,
    x: &Context,
    others: &Tri,
    a: usize,
    steps: &mut Steps<L>,
) -> Result<(), NoMemory>
    requires row { a < x.now.cells }
    requires cells { x.now.cells ≡ others.now.cells }
    requires reach { table_reach x.now + table_reach others.now < 2 ^ 20 }
    ensures row { OnOk result (entries.new.items ≡ entries.old.items
        ++ row x.now.cells (λ c d. times (entry x.now c d) (cumulated (entry others.now) c d)) a) }
    ensures ticks { OnOk result (steps.new ≡ steps.old + (x.now.cells - a)) }
    ensures at_most { steps.new ≤ steps.old + (x.now.cells - a) }
{
    let mut reached = Enc::zero();
    for d in a..x.cells() {
        reached = reached.plus(&others.get(a, d));
        steps.tick();
        entries.push(x.get(a, d).times(&reached))?;
    }
    Ok(())
}

// Adds to each entry from `base` on what the others have behind its cell.
fn add_later<L: Ledger>(
    sums: &mut [Enc],
    base: usize,
    x: &Context,
    others: &Tri,
    a: usize,
    steps: &mut Steps<L>,
)
    requires row { a < x.now.cells }
    requires cells { x.now.cells ≡ others.now.cells }
    requires reach { table_reach x.now + table_reach others.now < 2 ^ 20 }
    requires width { length sums.old ≡ base + (x.now.cells - a) }
    requires own { (d : ℕ) → a ≤ d → d < x.now.cells → slice_index_or sums.old (base + (d - a)) exact_zero
        ≡ times (entry x.now a d) (cumulated (entry others.now) a d) }
    ensures width { length sums.new ≡ length sums.old }
    ensures before { (i : ℕ) → i < base →
        slice_index_or sums.new i exact_zero ≡ slice_index_or sums.old i exact_zero }
    ensures row { (i : ℕ) → i < x.now.cells - a → slice_index_or sums.new (base + i) exact_zero
        ≡ into_phase_entry x.now.cells (entry x.now) (entry others.now) a (a + i) }
    ensures ticks { steps.new ≡ steps.old + (x.now.cells - a) }
{
    let cells = x.cells();
    let mut later = Enc::zero();
    for i in 0..cells - a {
        let d = cells - 1 - i;
        let (left, right) = (x.get(a, d), others.get(a, d));
        sums[base + (d - a)] = sums[base + (d - a)].plus(&later);
        steps.tick();
        later = later.plus(&left.times(&right));
    }
}
