//! The contexts of what an After or a Before group has.
ghost use Rattle.std.specs.Prelude.{◌≡◌, ◌+◌, ◌++◌, ◌^◌, ◌<◌, ◌≤◌, ℕ, IfOk, OnOk, length, slice_index_or};
ghost use Rattle.cg_enc.specs.Enclosure.{exact_zero};
ghost use Rattle.cg_table.specs.Live.{live_rows};
ghost use Rattle.cg_table.specs.Sums.{sum_of};
ghost use Rattle.cg_table.specs.Table.{IsTable, EnclosesTable, entry, row, table_loss, table_reach};
ghost use Rattle.cg_path.specs.Contexts as exact;
ghost use Rattle.cg_context.specs.Formulas.{into_after_entry, into_after_of, into_before_entry, into_before_of};
ghost use Rattle.cg_context.specs.Formulas.{row_by};

use crate::cells::{add_entries, zeros};
use crate::context::Context;
use cg_enc::Enc;
use cg_num::NoMemory;

/// The context of the Phase of an After group's members, by that of the group: nothing before it bounds it, so it
/// begins at the oldest cell.
pub fn into_after(x: &Context) -> Result<Context, NoMemory>
    requires { table_reach x.now < 2 ^ 20 }
    ensures value { IfOk result (λ r. r ≡ into_after_of x.now) }
    ensures encloses { (y : ℕ → ℕ → ℕ) (d : ℕ) → 0 < d → EnclosesTable x.now y d →
        IfOk result (λ r. EnclosesTable r (exact.into_after x.now.cells y) d) }
    ensures loss { x.now.cells ≤ 512 → IfOk result (λ r. table_loss r ≤ table_loss x.now + 2 ^ 13) }
    ensures reach { x.now.cells ≤ 512 → IfOk result (λ r. table_reach r ≤ table_reach x.now + 1) }
{
    filled_after(x)
}

fn filled_after(x: &Context) -> Result<Context, NoMemory>
    requires { table_reach x.now < 2 ^ 20 }
    ensures value { IfOk result (λ r. r ≡ into_after_of x.now) }
    ensures operand { IsTable x.now }
{
    let cells = x.cells();
    let mut row = reaching(x)?;
    add_tied(&mut row, x);
    Ok(Context::of_rows(cells, cells.min(1), row))
}

// At each cell the sum over all that reaches it from an older one.
fn reaching(x: &Context) -> Result<Vec<Enc>, NoMemory>
    requires { table_reach x.now < 2 ^ 20 }
    ensures { IfOk result (λ sums. sums.items ≡ row_by x.now.cells (λ c. sum_of (λ d. entry x.now d c) 0 c)) }
{
    let mut sums = zeros(x.table().allocator(), x.cells())?;
    for a in 0..x.live() {
        add_entries(&mut sums, x, a, 1);
    }
    Ok(sums)
}

// Adds at each cell the sum over all that begins and ends at one cell, at it or later.
fn add_tied(sums: &mut [Enc], x: &Context)
    requires reach { table_reach x.now < 2 ^ 20 }
    requires width { length sums.old ≡ x.now.cells }
    requires sums { sums.old ≡ row_by x.now.cells (λ c. sum_of (λ d. entry x.now d c) 0 c) }
    ensures { sums.new ≡ row_by x.now.cells (into_after_entry x.now.cells (entry x.now) 0) }
{
    let cells = sums.len();
    let mut sum = Enc::zero();
    for i in 0..x.cells() {
        let c = cells - 1 - i;
        sum = sum.plus(&x.get(c, c));
        sums[c] = sums[c].plus(&sum);
    }
}

/// The context of the Phase of a Before group's members, by that of the group: it bounds nothing behind it, so all that
/// begins at a cell has one coefficient.
pub fn into_before(x: &Context) -> Result<Context, NoMemory>
    ensures value { IfOk result (λ r. r ≡ into_before_of x.now) }
    ensures encloses { (y : ℕ → ℕ → ℕ) (d : ℕ) → EnclosesTable x.now y d →
        IfOk result (λ r. EnclosesTable r (exact.into_before y) d) }
    ensures loss { IfOk result (λ r. table_loss r ≤ table_loss x.now) }
    ensures reach { IfOk result (λ r. table_reach r ≤ table_reach x.now) }
{
    filled_before(x)
}

fn filled_before(x: &Context) -> Result<Context, NoMemory>
    ensures value { IfOk result (λ r. r ≡ into_before_of x.now) }
    ensures operand { IsTable x.now }
{
    let cells = x.cells();
    let live = x.live();
    let mut entries = Vec::new(x.table().allocator());
    for a in 0..live {
        push_before(&mut entries, x, a)?;
    }
    Ok(Context::of_rows(cells, live, entries))
}

fn push_before(entries: &mut Vec<Enc>, x: &Context, a: usize) -> Result<(), NoMemory>
    requires { a < x.now.cells }
    ensures { OnOk result (entries.new.items ≡ entries.old.items
        ++ row x.now.cells (into_before_entry (entry x.now)) a) }
{
    let own = x.get(a, a);
    for _ in a..x.cells() {
        entries.push(own)?;
    }
    Ok(())
}
