//! The coefficients of an event's weights.
ghost use Rattle.std.specs.Prelude.{◌≡◌, ◌+◌, ◌^◌, ◌<◌, ◌≤◌, ℕ, IfOk};
ghost use Rattle.cg_table.specs.Losses.{greatest_loss, greatest_reach};
ghost use Rattle.cg_table.specs.Table.{IsTable, EnclosesRow, EnclosesTable, entry, table_loss, table_reach};
ghost use Rattle.cg_path.specs.Contexts as exact;
ghost use Rattle.cg_context.specs.Formulas.{at_leaf_entry, row_by};

use crate::cells::{add_entries, row_of, zeros};
use crate::context::Context;
use cg_num::NoMemory;
use cg_table::Row;

/// The coefficients of an event's weights, by the event's context: at each cell the sum over all that reaches it.
pub fn at_leaf(x: &Context) -> Result<Row, NoMemory>
    requires { table_reach x.now < 2 ^ 20 }
    ensures value { IfOk result (λ r. r ≡ row_by x.now.cells (at_leaf_entry (entry x.now))) }
    ensures encloses { (y : ℕ → ℕ → ℕ) (d : ℕ) → 0 < d → EnclosesTable x.now y d →
        IfOk result (λ r. EnclosesRow r (exact.at_leaf y) d) }
    ensures loss { x.now.cells ≤ 512 → IfOk result (λ r. greatest_loss r ≤ table_loss x.now + 2 ^ 13) }
    ensures reach { x.now.cells ≤ 512 → IfOk result (λ r. greatest_reach r ≤ table_reach x.now + 1) }
{
    filled_leaf(x)
}

fn filled_leaf(x: &Context) -> Result<Row, NoMemory>
    requires { table_reach x.now < 2 ^ 20 }
    ensures value { IfOk result (λ r. r ≡ row_by x.now.cells (at_leaf_entry (entry x.now))) }
    ensures operand { IsTable x.now }
{
    let mut sums = zeros(x.table().allocator(), x.cells())?;
    for a in 0..x.live() {
        add_entries(&mut sums, x, a, 0);
    }
    row_of(&sums)
}
