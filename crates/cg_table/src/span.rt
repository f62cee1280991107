//! Tables of events between two Boundaries.
ghost use Rattle.std.specs.Prelude.{◌≡◌, ◌+◌, ◌-◌, ◌*◌, ◌++◌, ◌^◌, ◌<◌, ◌≤◌, ℕ, IfOk, OnOk, map};
ghost use Rattle.std.specs.List.{range_with_len};
ghost use Rattle.cg_enc.specs.Enclosure.{IsExponent};
ghost use Rattle.cg_enc.specs.Rounding.{of_whole, over};
ghost use Rattle.cg_table.specs.Exact.{exact_spanned};
ghost use Rattle.cg_table.specs.Formulas.{span_power, spanned_entry, spanned_of};
ghost use Rattle.cg_table.specs.Live.{live_rows};
ghost use Rattle.cg_table.specs.Table.{IsTable, EnclosesTable, entry, row};
ghost use Rattle.cg_table.specs.Table.{start, table_loss, table_reach};

use crate::steps::Steps;
use crate::tri::Tri;
use cg_enc::Enc;
use cg_num::NoMemory;
use std::alloc::Global;
use std::sync::ledger::Ledger;

/// The table of members between two Boundaries, at `a` and `b`, of which `n` events have no pair of Boundaries of their
/// own: what begins at `a` and reaches `b` at the latest, over the number of cells from `a` to `b` once for each of them.
///
/// It takes `n` products for each cell, and one for each entry of the live rows.
pub fn spanned<L: Ledger>(m: &Tri, n: u32, steps: &mut Steps<L>) -> Result<Tri, NoMemory>
    requires { table_reach m.now < 2 ^ 20 }
    ensures value { IfOk result (λ r. r ≡ spanned_of m.now n) }

    // The weight of a span is one over its cells, as a whole number of parts of e.
    ensures encloses { (x : ℕ → ℕ → ℕ) (weight : ℕ → ℕ) (d e : ℕ) → 0 < d → 0 < e →
        EnclosesTable m.now x d →
        ((s : ℕ) → 1 ≤ s → s ≤ m.now.cells → weight s * s ≡ e) →
        IfOk result (λ r. EnclosesTable r (exact_spanned x weight n) (d * e ^ n)) }
    ensures loss { m.now.cells ≤ 512 → n ≤ 100 →
        IfOk result (λ r. table_loss r ≤ table_loss m.now + 2 ^ 13) }
    ensures reach { m.now.cells ≤ 512 → n ≤ 100 →
        IfOk result (λ r. table_reach r ≤ table_reach m.now + 1) }
    ensures ticks { OnOk result (steps.new
        ≡ steps.old + start m.now.cells (live_rows m.now) + m.now.cells * n) }
    ensures few { steps.new ≤ steps.old + start m.now.cells (live_rows m.now) + m.now.cells * n }
    ensures at_most { 2 * steps.new ≤ 2 * steps.old + m.now.cells * (m.now.cells + 1) + 2 * (m.now.cells * n) }
{
    filled_spanned(m, n, steps)
}

fn filled_spanned<L: Ledger>(m: &Tri, n: u32, steps: &mut Steps<L>) -> Result<Tri, NoMemory>
    requires { table_reach m.now < 2 ^ 20 }
    ensures value { IfOk result (λ r. r ≡ spanned_of m.now n) }
    ensures operand { IsTable m.now }
    ensures ticks { OnOk result (steps.new
        ≡ steps.old + start m.now.cells (live_rows m.now) + m.now.cells * n) }
    ensures few { steps.new ≤ steps.old + start m.now.cells (live_rows m.now) + m.now.cells * n }
{
    let (cells, live) = (m.cells(), m.live());
    let powers = powers(m.allocator(), cells, n, steps)?;
    let mut entries = Vec::new(m.allocator());
    for a in 0..live {
        push_spanned(&mut entries, m, &powers, n, a, steps)?;
    }
    Ok(Tri::of_rows(cells, live, entries))
}

/// What each of `n` open events takes the weights by, together, for spans of 1 cell to all.
pub fn powers<L: Ledger>(
    alloc: Global,
    cells: usize,
    n: u32,
    steps: &mut Steps<L>,
) -> Result<Vec<Enc>, NoMemory>
    requires { cells < 2 ^ 33 }
    ensures value { IfOk result (λ v. v.items ≡ map (λ s. span_power (s + 1) n) (range_with_len 0 cells)) }
    ensures ticks { OnOk result (steps.new ≡ steps.old + cells * n) }
    ensures at_most { steps.new ≤ steps.old + cells * n }
{
    let mut powers = Vec::new(alloc);
    for passed in 0..cells {
        powers.push(power(passed + 1, n, steps))?;
    }
    Ok(powers)
}

fn power<L: Ledger>(span: usize, n: u32, steps: &mut Steps<L>) -> Enc
    requires some { 0 < span }
    requires few { span < 2 ^ 34 }
    ensures value { result ≡ span_power span n }
    ensures ticks { steps.new ≡ steps.old + n }
{
    let share = share_of(span);
    let mut power = Enc::of_whole(1);
    for _ in 0..n {
        steps.tick();
        power = power.times(&share);
    }
    power
}

// One over the number of cells.
fn share_of(span: usize) -> Enc
    requires some { 0 < span }
    requires few { span < 2 ^ 34 }
    ensures value { result ≡ over (of_whole 1) (of_whole span) }
    ensures near { IsExponent (2 ^ 60) result.exp }
{
    let one = Enc::of_whole(1);
    let whole = Enc::of_whole(span as u128);
    one.over(&whole)
}

fn push_spanned<L: Ledger>(
    entries: &mut Vec<Enc>,
    m: &Tri,
    powers: &[Enc],
    n: u32,
    a: usize,
    steps: &mut Steps<L>,
) -> Result<(), NoMemory>
    requires row { a < m.now.cells }
    requires reach { table_reach m.now < 2 ^ 20 }
    requires powers { powers.now ≡ map (λ s. span_power (s + 1) n) (range_with_len 0 m.now.cells) }
    ensures row { OnOk result (entries.new.items ≡ entries.old.items
        ++ row m.now.cells (spanned_entry (entry m.now) n) a) }
    ensures ticks { OnOk result (steps.new ≡ steps.old + (m.now.cells - a)) }
    ensures at_most { steps.new ≤ steps.old + (m.now.cells - a) }
{
    let mut sum = Enc::zero();
    for b in a..m.cells() {
        sum = sum.plus(&m.get(a, b));
        steps.tick();
        entries.push(sum.times(&powers[b - a]))?;
    }
    Ok(())
}
