//! The context of what precedes an item of a Sequence. A row is one task: each column of the item's table, times one
//! coefficient, is added to a row of sums. The terms of a sum come in the order of the formula, so its bits are the formula's.
ghost use Rattle.std.specs.Prelude.{◌≡◌, ◌+◌, ◌-◌, ◌*◌, ◌++◌, ◌^◌, ◌<◌, ◌≤◌, ℕ, IfOk, OnOk};
ghost use Rattle.std.specs.Prelude.{length, map, slice_index_or, vec_items};
ghost use Rattle.std.specs.List.{flat_map, range_with_len};
ghost use Rattle.cg_enc.specs.Enclosure.{exact_zero};
ghost use Rattle.cg_table.specs.Live.{live_rows};
ghost use Rattle.cg_table.specs.Table.{IsTable, EnclosesTable, entry, row, rows, table_loss, table_reach};
ghost use Rattle.cg_path.specs.Contexts as exact;
ghost use Rattle.cg_context.specs.Columns.{by_columns};
ghost use Rattle.cg_context.specs.Formulas.{back_entry, back_of};

use crate::terms::{add_terms, joined, zeros};
use cg_context::Context;
use cg_enc::Enc;
use cg_num::NoMemory;
use cg_table::Tri;
use rayon::prelude::*;
use std::alloc::Global;
use std::sync::Wait;
use std::thread::Threads;

/// What `back` gives, its rows shared among threads: at `(a, c)` the sum for `d` from the youngest cell down to `c` of
/// the coefficient at `(a, d)`, times what begins at `c` and reaches `d`.
pub fn back_wide<R: Threads + Wait + Sync>(
    rt: &R,
    alloc: Global,
    v: &Context,
    t: &Tri,
) -> Result<Context, NoMemory>
    requires cells { v.now.cells ≡ t.now.cells }
    requires reach { table_reach v.now + table_reach t.now < 2 ^ 20 }
    ensures value { IfOk result (λ r. r ≡ back_of v.now t.now) }
    ensures encloses { (x y : ℕ → ℕ → ℕ) (d e : ℕ) → 0 < d → 0 < e →
        EnclosesTable v.now x d → EnclosesTable t.now y e →
        IfOk result (λ r. EnclosesTable r (exact.back v.now.cells x y) (d * e)) }
    ensures loss { v.now.cells ≤ 512 →
        IfOk result (λ r. table_loss r ≤ table_loss v.now + table_loss t.now + 2 ^ 13) }
    ensures reach { v.now.cells ≤ 512 →
        IfOk result (λ r. table_reach r ≤ table_reach v.now + table_reach t.now + 1) }
{
    filled_back(rt, alloc, v, t)
}

fn filled_back<R: Threads + Sync>(
    rt: &R,
    alloc: Global,
    v: &Context,
    t: &Tri,
) -> Result<Context, NoMemory>
    requires cells { v.now.cells ≡ t.now.cells }
    requires reach { table_reach v.now + table_reach t.now < 2 ^ 20 }
    ensures value { IfOk result (λ r. r ≡ back_of v.now t.now) }
    ensures operands { IsTable v.now × IsTable t.now }
{
    let cells = v.cells();
    let live = v.live().min(t.live());
    let columns = columns_of(alloc, t)?;
    let rows = preceding_rows(rt, alloc, v, t, &columns, live)?;
    let entries = joined(alloc, &rows)?;
    Ok(Context::of_rows(cells, live, entries))
}

fn columns_of(alloc: Global, t: &Tri) -> Result<Vec<Enc>, NoMemory>
    ensures { IfOk result (λ cs. cs.items ≡ by_columns (entry t.now) t.now.cells) }
{
    let mut entries = Vec::new(alloc);
    for d in 0..t.cells() {
        push_column(&mut entries, t, d)?;
    }
    Ok(entries)
}

fn push_column(entries: &mut Vec<Enc>, t: &Tri, d: usize) -> Result<(), NoMemory>
    requires column { d < t.now.cells }
    requires few { t.now.cells < 2 ^ 33 }
    ensures { OnOk result (entries.new.items ≡ entries.old.items
        ++ map (λ c. entry t.now c d) (range_with_len 0 (d + 1))) }
{
    for c in 0..d + 1 {
        entries.push(t.get(c, d))?;
    }
    Ok(())
}

// The first rows, each from a task of its own.
fn preceding_rows<R: Threads + Sync>(
    rt: &R,
    alloc: Global,
    v: &Context,
    t: &Tri,
    columns: &[Enc],
    live: usize,
) -> Result<Vec<Vec<Enc>>, NoMemory>
    requires live { (live ≤ v.now.cells) × (live ≤ live_rows t.now) }
    requires cells { v.now.cells ≡ t.now.cells }
    requires reach { table_reach v.now + table_reach t.now < 2 ^ 20 }
    requires columns { columns.now ≡ by_columns (entry t.now) t.now.cells }
    ensures { IfOk result (λ list. flat_map vec_items list.items
        ≡ rows v.now.cells (back_entry v.now.cells (entry v.now) (entry t.now)) live) }
{
    (0..live)
        .into_par_iter()
        .with_min_len(1)
        .map(
            |a: usize| -> Result<Vec<Enc>, NoMemory>
                requires { (a < v.now.cells) × (a < live_rows t.now) × (v.now.cells ≡ t.now.cells)
                    × (table_reach v.now + table_reach t.now < 2 ^ 20)
                    × (columns.now ≡ by_columns (entry t.now) t.now.cells) }
                ensures { IfOk result (λ sums. sums.items
                    ≡ row v.entry.now.cells (back_entry v.entry.now.cells (entry v.entry.now) (entry t.entry.now)) a) }
            { preceding_row(alloc, v, t, columns, a) },
        )
        .collect::<Result<Vec<Vec<Enc>>, NoMemory>>(rt, alloc)?
}

// Row `a` of the context.
fn preceding_row(
    alloc: Global,
    v: &Context,
    t: &Tri,
    columns: &[Enc],
    a: usize,
) -> Result<Vec<Enc>, NoMemory>
    requires row { a < v.now.cells }
    requires live { a < live_rows t.now }
    requires cells { v.now.cells ≡ t.now.cells }
    requires reach { table_reach v.now + table_reach t.now < 2 ^ 20 }
    requires columns { columns.now ≡ by_columns (entry t.now) t.now.cells }
    ensures { IfOk result (λ sums. sums.items
        ≡ row v.now.cells (back_entry v.now.cells (entry v.now) (entry t.now)) a) }
{
    let mut sums = zeros(alloc, v.cells() - a)?;
    add_columns(&mut sums, v, t, columns, a);
    Ok(sums)
}

// The same, onto zeros. Behind the table's live rows a column has zeros.
fn add_columns(sums: &mut [Enc], v: &Context, t: &Tri, columns: &[Enc], a: usize)
    requires row { a < v.now.cells }
    requires live { a < live_rows t.now }
    requires cells { v.now.cells ≡ t.now.cells }
    requires reach { table_reach v.now + table_reach t.now < 2 ^ 20 }
    requires columns { columns.now ≡ by_columns (entry t.now) t.now.cells }
    requires width { length sums.old ≡ v.now.cells - a }
    requires zeros { (i : ℕ) → i < v.now.cells - a → slice_index_or sums.old i exact_zero ≡ exact_zero }
    ensures width { length sums.new ≡ length sums.old }
    ensures row { (i : ℕ) → i < v.now.cells - a →
        slice_index_or sums.new i exact_zero ≡ back_entry v.now.cells (entry v.now) (entry t.now) a (a + i) }
{
    let (cells, live) = (v.cells(), t.live());
    let mut begin = columns.len();
    for i in 0..cells - a {
        let d = cells - 1 - i;
        begin -= d + 1;
        let factor = v.get(a, d);
        if !factor.is_zero() {
            add_terms(
                &factor,
                &columns[begin + a..begin + live.min(d + 1)],
                sums,
                0,
            );
        }
    }
}
