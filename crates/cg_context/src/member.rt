//! The coefficients of the weights of an event that is an item by itself.
ghost use Rattle.std.specs.Prelude.{◌≡◌, ◌+◌, ◌-◌, ◌*◌, ◌^◌, ◌<◌, ◌≤◌, ℕ, min, IfOk, OnOk};
ghost use Rattle.cg_enc.specs.Rounding.{times};
ghost use Rattle.cg_table.specs.Formulas.{cumulated};
ghost use Rattle.cg_table.specs.Live.{live_rows};
ghost use Rattle.cg_table.specs.Losses.{greatest_loss, greatest_reach};
ghost use Rattle.cg_table.specs.Table.{IsTable, EnclosesRow, EnclosesTable, entry, start, table_loss, table_reach};
ghost use Rattle.cg_path.specs.Contexts as exact;
ghost use Rattle.cg_context.specs.Columns.{AreColumns};
ghost use Rattle.cg_context.specs.Formulas.{at_member_entry, row_by};

use crate::cells::{row_of, zeros};
use crate::context::Context;
use cg_enc::Enc;
use cg_num::NoMemory;
use cg_table::{Row, Steps, Tri};
use std::sync::ledger::Ledger;

/// The coefficients of the weights of an event that is an item of a Sequence, by the table of what precedes it and the
/// context of both: at cell `y` the sum for `a` from the oldest cell to `y` of what begins at `a` and reaches `y` at
/// the latest, times the coefficient at `(a, y)`.
///
/// It takes one product for each entry of the rows that are live in both.
pub fn at_member<L: Ledger>(p: &Tri, v: &Context, steps: &mut Steps<L>) -> Result<Row, NoMemory>
    requires cells { p.now.cells ≡ v.now.cells }
    requires reach { table_reach p.now + table_reach v.now < 2 ^ 20 }
    ensures value { IfOk result (λ r. r ≡ row_by p.now.cells (at_member_entry (entry p.now) (entry v.now))) }
    ensures encloses { (y z : ℕ → ℕ → ℕ) (d e : ℕ) → 0 < d → 0 < e →
        EnclosesTable p.now y d → EnclosesTable v.now z e →
        IfOk result (λ r. EnclosesRow r (exact.at_member y z) (d * e)) }
    ensures loss { p.now.cells ≤ 512 →
        IfOk result (λ r. greatest_loss r ≤ table_loss p.now + table_loss v.now + 2 ^ 13) }
    ensures reach { p.now.cells ≤ 512 →
        IfOk result (λ r. greatest_reach r ≤ table_reach p.now + table_reach v.now + 1) }
    ensures ticks { OnOk result (steps.new
        ≡ steps.old + start p.now.cells (min (live_rows p.now) (live_rows v.now))) }
    ensures few { steps.new ≤ steps.old + start p.now.cells (min (live_rows p.now) (live_rows v.now)) }
    ensures at_most { 2 * steps.new ≤ 2 * steps.old + p.now.cells * (p.now.cells + 1) }
{
    filled_member(p, v, steps)
}

fn filled_member<L: Ledger>(p: &Tri, v: &Context, steps: &mut Steps<L>) -> Result<Row, NoMemory>
    requires cells { p.now.cells ≡ v.now.cells }
    requires reach { table_reach p.now + table_reach v.now < 2 ^ 20 }
    ensures value { IfOk result (λ r. r ≡ row_by p.now.cells (at_member_entry (entry p.now) (entry v.now))) }
    ensures operands { IsTable p.now × IsTable v.now }
    ensures ticks { OnOk result (steps.new
        ≡ steps.old + start p.now.cells (min (live_rows p.now) (live_rows v.now))) }
    ensures few { steps.new ≤ steps.old + start p.now.cells (min (live_rows p.now) (live_rows v.now)) }
{
    let live = p.live().min(v.live());
    let mut sums = zeros(p.allocator(), p.cells())?;
    for a in 0..live {
        add_member(&mut sums, p, v, a, steps);
    }
    row_of(&sums)
}

// Adds, from cell `a` on, what begins at `a`.
fn add_member<L: Ledger>(sums: &mut [Enc], p: &Tri, v: &Context, a: usize, steps: &mut Steps<L>)
    requires row { a < p.now.cells }
    requires cells { p.now.cells ≡ v.now.cells }
    requires reach { table_reach p.now + table_reach v.now < 2 ^ 20 }
    requires sums { AreColumns (λ b y. times (cumulated (entry p.now) b y) (entry v.now b y))
        p.now.cells 1 a sums.old }
    ensures sums { AreColumns (λ b y. times (cumulated (entry p.now) b y) (entry v.now b y))
        p.now.cells 1 (a + 1) sums.new }
    ensures ticks { steps.new ≡ steps.old + (p.now.cells - a) }
{
    let mut reached = Enc::zero();
    for y in a..p.cells() {
        reached = reached.plus(&p.get(a, y));
        steps.tick();
        sums[y] = sums[y].plus(&reached.times(&v.get(a, y)));
    }
}
