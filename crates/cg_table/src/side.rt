//! Tables of events side by side.
ghost use Rattle.std.specs.Prelude.{◌≡◌, ◌+◌, ◌-◌, ◌*◌, ◌++◌, ◌^◌, ◌<◌, ◌≤◌, ℕ, min, IfOk, OnOk};
ghost use Rattle.cg_table.specs.Exact.{exact_beside};
ghost use Rattle.cg_table.specs.Formulas.{beside_entry, beside_of};
ghost use Rattle.cg_table.specs.Live.{live_rows};
ghost use Rattle.cg_table.specs.Table.{IsTable, EnclosesTable, entry, row};
ghost use Rattle.cg_table.specs.Table.{start, table_loss, table_reach};

use crate::steps::Steps;
use crate::tri::Tri;
use cg_enc::Enc;
use cg_num::NoMemory;
use std::sync::ledger::Ledger;

/// The table of what two tables have, neither before the other: one of both reaches `b` and the other no further. Where
/// both reach it, that counts once.
///
/// It takes two products for each entry of the rows that are live in both.
pub fn beside<L: Ledger>(s: &Tri, t: &Tri, steps: &mut Steps<L>) -> Result<Tri, NoMemory>
    requires cells { s.now.cells ≡ t.now.cells }
    requires reach { table_reach s.now + table_reach t.now < 2 ^ 20 }
    ensures value { IfOk result (λ r. r ≡ beside_of s.now t.now) }
    ensures encloses { (x y : ℕ → ℕ → ℕ) (d e : ℕ) → 0 < d → 0 < e →
        EnclosesTable s.now x d → EnclosesTable t.now y e →
        IfOk result (λ r. EnclosesTable r (exact_beside x y) (d * e)) }
    ensures loss { s.now.cells ≤ 512 →
        IfOk result (λ r. table_loss r ≤ table_loss s.now + table_loss t.now + 2 ^ 13) }
    ensures reach { s.now.cells ≤ 512 →
        IfOk result (λ r. table_reach r ≤ table_reach s.now + table_reach t.now + 1) }
    ensures ticks { OnOk result (steps.new
        ≡ steps.old + 2 * start s.now.cells (min (live_rows s.now) (live_rows t.now))) }
    ensures few { steps.new ≤ steps.old + 2 * start s.now.cells (min (live_rows s.now) (live_rows t.now)) }
    ensures at_most { steps.new ≤ steps.old + s.now.cells * (s.now.cells + 1) }
{
    filled_beside(s, t, steps)
}

fn filled_beside<L: Ledger>(s: &Tri, t: &Tri, steps: &mut Steps<L>) -> Result<Tri, NoMemory>
    requires cells { s.now.cells ≡ t.now.cells }
    requires reach { table_reach s.now + table_reach t.now < 2 ^ 20 }
    ensures value { IfOk result (λ r. r ≡ beside_of s.now t.now) }
    ensures operands { IsTable s.now × IsTable t.now }
    ensures ticks { OnOk result (steps.new
        ≡ steps.old + 2 * start s.now.cells (min (live_rows s.now) (live_rows t.now))) }
    ensures few { steps.new ≤ steps.old + 2 * start s.now.cells (min (live_rows s.now) (live_rows t.now)) }
{
    let cells = s.cells();
    let live = s.live().min(t.live());
    let mut entries = Vec::new(s.allocator());
    for a in 0..live {
        push_beside(&mut entries, s, t, a, steps)?;
    }
    Ok(Tri::of_rows(cells, live, entries))
}

fn push_beside<L: Ledger>(
    entries: &mut Vec<Enc>,
    s: &Tri,
    t: &Tri,
    a: usize,
    steps: &mut Steps<L>,
) -> Result<(), NoMemory>
    requires row { a < s.now.cells }
    requires cells { s.now.cells ≡ t.now.cells }
    requires reach { table_reach s.now + table_reach t.now < 2 ^ 20 }
    ensures row { OnOk result (entries.new.items ≡ entries.old.items
        ++ row s.now.cells (beside_entry (entry s.now) (entry t.now)) a) }
    ensures ticks { OnOk result (steps.new ≡ steps.old + 2 * (s.now.cells - a)) }
    ensures at_most { steps.new ≤ steps.old + 2 * (s.now.cells - a) }
{
    let mut before = Enc::zero();
    let mut reached = Enc::zero();
    for b in a..s.cells() {
        let left = s.get(a, b);
        let right = t.get(a, b);
        reached = reached.plus(&right);
        steps.tick();
        let first = before.times(&right);
        steps.tick();
        let second = left.times(&reached);
        entries.push(first.plus(&second))?;
        before = before.plus(&left);
    }
    Ok(())
}
