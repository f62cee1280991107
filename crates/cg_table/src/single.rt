//! Tables of nothing and of one event, and what a table has in all.
ghost use Rattle.std.specs.Prelude.{◌≡◌, ◌+◌, ◌-◌, ◌*◌, ◌++◌, ◌^◌, ◌<◌, ◌≤◌, ℕ, IfOk, OnOk, length};
ghost use Rattle.cg_enc.specs.Enclosure.{Encloses};
ghost use Rattle.cg_table.specs.Exact.{exact_identity, exact_row_table};
ghost use Rattle.cg_table.specs.Formulas.{identity_entry, identity_of, row_table, total_entry};
ghost use Rattle.cg_table.specs.Live.{identity_rows_of};
ghost use Rattle.cg_table.specs.Losses.{greatest_loss, greatest_reach};
ghost use Rattle.cg_table.specs.Row.{AreEntries};
ghost use Rattle.cg_table.specs.Sums.{sum_of, total_of};
ghost use Rattle.cg_table.specs.Table.{IsTable, EnclosesRow, EnclosesTable, entry, row, row_entry, rows};
ghost use Rattle.cg_table.specs.Table.{table_loss, table_reach};

use crate::row::Row;
use crate::tri::Tri;
use cg_enc::Enc;
use cg_num::NoMemory;
use std::alloc::Global;

/// The table of nothing: 1 where `a = b`, else zero.
pub fn identity(alloc: Global, cells: usize) -> Result<Tri, NoMemory>
    ensures value { IfOk result (λ t. t ≡ identity_of cells) }
    ensures encloses { IfOk result (λ t. EnclosesTable t exact_identity 1) }
    ensures loss { IfOk result (λ t. table_loss t ≡ 0) }
    ensures reach { IfOk result (λ t. table_reach t ≤ 1) }
{
    let entries = identity_entries(alloc, cells, cells)?;
    Ok(Tri::of_entries(cells, entries))
}

/// The table of nothing in its first `live` rows, zero in the others.
pub fn identity_rows(alloc: Global, cells: usize, live: usize) -> Result<Tri, NoMemory>
    requires within { live ≤ cells }
    requires few { cells < 2 ^ 33 }
    ensures value { IfOk result (λ t. t ≡ identity_rows_of cells live) }
    ensures loss { IfOk result (λ t. table_loss t ≡ 0) }
    ensures reach { IfOk result (λ t. table_reach t ≤ 1) }
{
    let entries = identity_entries(alloc, cells, live)?;
    Ok(Tri::of_rows(cells, live, entries))
}

// The first `live` rows.
fn identity_entries(alloc: Global, cells: usize, live: usize) -> Result<Vec<Enc>, NoMemory>
    requires { live ≤ cells }
    ensures { IfOk result (λ v. v.items ≡ rows cells identity_entry live) }
{
    let mut entries = Vec::new(alloc);
    for a in 0..live {
        push_identity(&mut entries, cells, a)?;
    }
    Ok(entries)
}

fn push_identity(entries: &mut Vec<Enc>, cells: usize, a: usize) -> Result<(), NoMemory>
    requires { a < cells }
    ensures { OnOk result (entries.new.items ≡ entries.old.items ++ row cells identity_entry a) }
{
    for b in a..cells {
        entries.push(unit(a, b))?;
    }
    Ok(())
}

fn unit(a: usize, b: usize) -> Enc
    ensures { result ≡ identity_entry a b }
{
    if a == b {
        return Enc::of_whole(1);
    }
    Enc::zero()
}

/// The table of one event, by its weight at each cell: at `(a, b)` that at `b`.
pub fn of_row(alloc: Global, w: &Row) -> Result<Tri, NoMemory>
    ensures value { IfOk result (λ t. t ≡ row_table w.now) }
    ensures encloses { (y : ℕ → ℕ) (d : ℕ) → EnclosesRow w.now y d →
        IfOk result (λ t. EnclosesTable t (exact_row_table y) d) }
    ensures loss { IfOk result (λ t. table_loss t ≤ greatest_loss w.now) }
    ensures reach { IfOk result (λ t. table_reach t ≤ greatest_reach w.now) }
{
    filled_row(alloc, w)
}

fn filled_row(alloc: Global, w: &Row) -> Result<Tri, NoMemory>
    ensures value { IfOk result (λ t. t ≡ row_table w.now) }
    ensures entries { AreEntries w.now }
{
    let cells = w.len();
    let mut entries = Vec::new(alloc);
    for a in 0..cells {
        push_row(&mut entries, w, a)?;
    }
    Ok(Tri::of_entries(cells, entries))
}

fn push_row(entries: &mut Vec<Enc>, w: &Row, a: usize) -> Result<(), NoMemory>
    requires { a < length w.now }
    ensures { OnOk result (entries.new.items ≡ entries.old.items
        ++ row (length w.now) (λ a b. row_entry w.now b) a) }
{
    for b in a..w.len() {
        entries.push(w.get(b))?;
    }
    Ok(())
}

/// All that begins at the oldest cell. Takes no memory.
pub fn total(t: &Tri) -> Enc
    requires { table_reach t.now < 2 ^ 20 }
    ensures value { result ≡ total_entry t.now }
    ensures encloses { (x : ℕ → ℕ → ℕ) (d : ℕ) → 0 < d → EnclosesTable t.now x d →
        Encloses result (total_of (x 0) 0 t.now.cells) d }
{
    summed(t, 0, 0, t.cells())
}

// The sum over row `a` from one cell up to another, which is left out.
pub(crate) fn summed(t: &Tri, a: usize, from: usize, to: usize) -> Enc
    requires order { a ≤ from }
    requires order_of_cells { from ≤ to }
    requires within { to ≤ t.now.cells }
    requires reach { table_reach t.now < 2 ^ 20 }
    ensures { result ≡ sum_of (entry t.now a) from (to - from) }
{
    let mut sum = Enc::zero();
    for b in from..to {
        sum = sum.plus(&t.get(a, b));
    }
    sum
}
