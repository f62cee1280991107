//! The context of the members between two Boundaries.
ghost use Rattle.std.specs.Prelude.{◌≡◌, ◌+◌, ◌-◌, ◌*◌, ◌++◌, ◌^◌, ◌<◌, ◌≤◌, ℕ};
ghost use Rattle.std.specs.Prelude.{IfOk, OnOk, length, map, slice_index_or};
ghost use Rattle.std.specs.List.{range_with_len};
ghost use Rattle.cg_enc.specs.Enclosure.{exact_zero};
ghost use Rattle.cg_meaning.specs.Pairs.{factorial};
ghost use Rattle.cg_table.specs.Formulas.{span_power};
ghost use Rattle.cg_table.specs.Live.{live_rows};
ghost use Rattle.cg_table.specs.Table.{IsTable, EnclosesTable, entry, row};
ghost use Rattle.cg_table.specs.Table.{start, table_loss, table_reach};
ghost use Rattle.cg_path.specs.Contexts as exact;
ghost use Rattle.cg_context.specs.Formulas.{into_span_entry, into_span_of};

use crate::context::Context;
use cg_enc::Enc;
use cg_num::NoMemory;
use cg_table::{Steps, powers, push_zeros};
use std::sync::ledger::Ledger;

/// The context of the members between two Boundaries, of which `n` events have no pair of Boundaries of their own, by
/// the span's context: at `(a, c)` the sum of the coefficients of the spans from `a` to `c` and to each later cell,
/// each over the number of cells of its span once for each of those events.
///
/// It takes `n` products for each cell, and one for each entry of the live rows.
pub fn into_span<L: Ledger>(x: &Context, n: u32, steps: &mut Steps<L>) -> Result<Context, NoMemory>
    requires { table_reach x.now < 2 ^ 20 }
    ensures value { IfOk result (λ r. r ≡ into_span_of x.now n) }
    ensures encloses { (y : ℕ → ℕ → ℕ) (d : ℕ) → 0 < d → EnclosesTable x.now y d →
        IfOk result (λ r. EnclosesTable r (exact.into_span x.now.cells y n) (d * factorial x.now.cells ^ n)) }
    ensures loss { x.now.cells ≤ 512 → n ≤ 100 → IfOk result (λ r. table_loss r ≤ table_loss x.now + 2 ^ 13) }
    ensures reach { x.now.cells ≤ 512 → n ≤ 100 → IfOk result (λ r. table_reach r ≤ table_reach x.now + 1) }
    ensures ticks { OnOk result (steps.new
        ≡ steps.old + start x.now.cells (live_rows x.now) + x.now.cells * n) }
    ensures few { steps.new ≤ steps.old + start x.now.cells (live_rows x.now) + x.now.cells * n }
    ensures at_most { 2 * steps.new ≤ 2 * steps.old + x.now.cells * (x.now.cells + 1) + 2 * (x.now.cells * n) }
{
    filled_span(x, n, steps)
}

fn filled_span<L: Ledger>(x: &Context, n: u32, steps: &mut Steps<L>) -> Result<Context, NoMemory>
    requires { table_reach x.now < 2 ^ 20 }
    ensures value { IfOk result (λ r. r ≡ into_span_of x.now n) }
    ensures operand { IsTable x.now }
    ensures ticks { OnOk result (steps.new
        ≡ steps.old + start x.now.cells (live_rows x.now) + x.now.cells * n) }
    ensures few { steps.new ≤ steps.old + start x.now.cells (live_rows x.now) + x.now.cells * n }
{
    let (cells, live) = (x.cells(), x.live());
    let alloc = x.table().allocator();
    let powers = powers(alloc, cells, n, steps)?;
    let mut entries = Vec::new(alloc);
    for a in 0..live {
        push_span(&mut entries, x, &powers, n, a, steps)?;
    }
    Ok(Context::of_rows(cells, live, entries))
}

fn push_span<L: Ledger>(
    entries: &mut Vec<Enc>,
    x: &Context,
    powers: &[Enc],
    n: u32,
    a: usize,
    steps: &mut Steps<L>,
) -> Result<(), NoMemory>
    requires row { a < x.now.cells }
    requires reach { table_reach x.now < 2 ^ 20 }
    requires powers { powers.now ≡ map (λ s. span_power (s + 1) n) (range_with_len 0 x.now.cells) }
    ensures row { OnOk result (entries.new.items ≡ entries.old.items
        ++ row x.now.cells (into_span_entry x.now.cells (entry x.now) n) a) }
    ensures ticks { OnOk result (steps.new ≡ steps.old + (x.now.cells - a)) }
    ensures at_most { steps.new ≤ steps.old + (x.now.cells - a) }
{
    let base = entries.len();
    push_zeros(entries, x.cells() - a)?;
    fill_span(entries, base, x, powers, n, a, steps);
    Ok(())
}

// Row `a`, from `base` on, from the youngest cell down.
fn fill_span<L: Ledger>(
    sums: &mut [Enc],
    base: usize,
    x: &Context,
    powers: &[Enc],
    n: u32,
    a: usize,
    steps: &mut Steps<L>,
)
    requires row { a < x.now.cells }
    requires reach { table_reach x.now < 2 ^ 20 }
    requires powers { powers.now ≡ map (λ s. span_power (s + 1) n) (range_with_len 0 x.now.cells) }
    requires width { length sums.old ≡ base + (x.now.cells - a) }
    ensures width { length sums.new ≡ length sums.old }
    ensures before { (i : ℕ) → i < base →
        slice_index_or sums.new i exact_zero ≡ slice_index_or sums.old i exact_zero }
    ensures row { (i : ℕ) → i < x.now.cells - a → slice_index_or sums.new (base + i) exact_zero
        ≡ into_span_entry x.now.cells (entry x.now) n a (a + i) }
    ensures ticks { steps.new ≡ steps.old + (x.now.cells - a) }
{
    let cells = x.cells();
    let mut sum = Enc::zero();
    for i in 0..cells - a {
        let b = cells - 1 - i;
        steps.tick();
        sum = sum.plus(&x.get(a, b).times(&powers[b - a]));
        sums[base + (b - a)] = sum;
    }
}
