//! The coefficients of the weights of a Boundary that closes a span.
ghost use Rattle.std.specs.Prelude.{◌≡◌, ◌+◌, ◌-◌, ◌*◌, ◌^◌, ◌<◌, ◌≤◌, ℕ, min, IfOk, OnOk};
ghost use Rattle.cg_enc.specs.Rounding.{times};
ghost use Rattle.cg_table.specs.Live.{live_rows};
ghost use Rattle.cg_table.specs.Losses.{greatest_loss, greatest_reach};
ghost use Rattle.cg_table.specs.Table.{IsTable, EnclosesRow, EnclosesTable, entry, start};
ghost use Rattle.cg_table.specs.Table.{table_loss, table_reach};
ghost use Rattle.cg_path.specs.Contexts as exact;
ghost use Rattle.cg_context.specs.Columns.{AreColumns};
ghost use Rattle.cg_context.specs.Formulas.{at_end_entry, row_by};

use crate::cells::{row_of, zeros};
use crate::context::Context;
use cg_enc::Enc;
use cg_num::NoMemory;
use cg_table::{Row, Steps, Tri};
use std::sync::ledger::Ledger;

/// The coefficients of the weights of the Boundary that closes a span, by the span's context and its table: at each
/// cell the sum of the products of all that reaches it.
pub fn at_end<L: Ledger>(x: &Context, k: &Tri, steps: &mut Steps<L>) -> Result<Row, NoMemory>
    requires cells { x.now.cells ≡ k.now.cells }
    requires reach { table_reach x.now + table_reach k.now < 2 ^ 20 }
    ensures value { IfOk result (λ r. r ≡ row_by x.now.cells (at_end_entry (entry x.now) (entry k.now))) }
    ensures encloses { (y z : ℕ → ℕ → ℕ) (d e : ℕ) → 0 < d → 0 < e →
        EnclosesTable x.now y d → EnclosesTable k.now z e →
        IfOk result (λ r. EnclosesRow r (exact.at_end y z) (d * e)) }
    ensures loss { x.now.cells ≤ 512 →
        IfOk result (λ r. greatest_loss r ≤ table_loss x.now + table_loss k.now + 2 ^ 13) }
    ensures reach { x.now.cells ≤ 512 →
        IfOk result (λ r. greatest_reach r ≤ table_reach x.now + table_reach k.now + 1) }
    ensures ticks { OnOk result (steps.new
        ≡ steps.old + start x.now.cells (min (live_rows x.now) (live_rows k.now))) }
    ensures few { steps.new ≤ steps.old + start x.now.cells (min (live_rows x.now) (live_rows k.now)) }
    ensures at_most { 2 * steps.new ≤ 2 * steps.old + x.now.cells * (x.now.cells + 1) }
{
    filled_end(x, k, steps)
}

fn filled_end<L: Ledger>(x: &Context, k: &Tri, steps: &mut Steps<L>) -> Result<Row, NoMemory>
    requires cells { x.now.cells ≡ k.now.cells }
    requires reach { table_reach x.now + table_reach k.now < 2 ^ 20 }
    ensures value { IfOk result (λ r. r ≡ row_by x.now.cells (at_end_entry (entry x.now) (entry k.now))) }
    ensures operands { IsTable x.now × IsTable k.now }
    ensures ticks { OnOk result (steps.new
        ≡ steps.old + start x.now.cells (min (live_rows x.now) (live_rows k.now))) }
    ensures few { steps.new ≤ steps.old + start x.now.cells (min (live_rows x.now) (live_rows k.now)) }
{
    let live = x.live().min(k.live());
    let mut sums = zeros(x.table().allocator(), x.cells())?;
    for a in 0..live {
        add_end(&mut sums, x, k, a, steps);
    }
    row_of(&sums)
}

fn add_end<L: Ledger>(sums: &mut [Enc], x: &Context, k: &Tri, a: usize, steps: &mut Steps<L>)
    requires row { a < x.now.cells }
    requires cells { x.now.cells ≡ k.now.cells }
    requires reach { table_reach x.now + table_reach k.now < 2 ^ 20 }
    requires sums { AreColumns (λ b y. times (entry x.now b y) (entry k.now b y)) x.now.cells 1 a sums.old }
    ensures sums { AreColumns (λ b y. times (entry x.now b y) (entry k.now b y)) x.now.cells 1 (a + 1) sums.new }
    ensures ticks { steps.new ≡ steps.old + (x.now.cells - a) }
{
    for y in a..x.cells() {
        steps.tick();
        sums[y] = sums[y].plus(&x.get(a, y).times(&k.get(a, y)));
    }
}
