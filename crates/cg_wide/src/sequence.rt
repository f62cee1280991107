//! The context of an item of a Sequence. A row is one task: part of a row of the context, times one entry of the table,
//! is added to a row of sums. The terms of a sum come in the order of the formula, so its bits are the formula's.
ghost use Rattle.std.specs.Prelude.{◌≡◌, ◌+◌, ◌-◌, ◌*◌, ◌^◌, ◌<◌, ◌≤◌, ℕ};
ghost use Rattle.std.specs.Prelude.{IfOk, length, slice_index_or, vec_items};
ghost use Rattle.std.specs.List.{flat_map};
ghost use Rattle.cg_enc.specs.Enclosure.{exact_zero};
ghost use Rattle.cg_table.specs.Table.{IsTable, EnclosesTable, entry, row, rows, table_loss, table_reach};
ghost use Rattle.cg_path.specs.Contexts as exact;
ghost use Rattle.cg_context.specs.Formulas.{into_sequence_entry, into_sequence_of};

use crate::terms::{add_terms, joined, zeros};
use cg_context::Context;
use cg_enc::Enc;
use cg_num::NoMemory;
use cg_table::{Tri, place_of};
use rayon::prelude::*;
use std::alloc::Global;
use std::sync::Wait;
use std::thread::Threads;

/// What `into_sequence` gives, its rows shared among threads: at `(c, d)` the sum for `a` from the oldest cell to `c` of
/// what begins at `a` and reaches `c`, times the coefficient at `(a, d)`.
///
/// It goes over the rows that are live in both.
pub fn into_sequence_wide<R: Threads + Wait + Sync>(
    rt: &R,
    alloc: Global,
    p: &Tri,
    v: &Context,
) -> Result<Context, NoMemory>
    requires cells { p.now.cells ≡ v.now.cells }
    requires reach { table_reach p.now + table_reach v.now < 2 ^ 20 }
    ensures value { IfOk result (λ r. r ≡ into_sequence_of p.now v.now) }
    ensures encloses { (y z : ℕ → ℕ → ℕ) (d e : ℕ) → 0 < d → 0 < e →
        EnclosesTable p.now y d → EnclosesTable v.now z e →
        IfOk result (λ r. EnclosesTable r (exact.into_sequence y z) (d * e)) }
    ensures loss { p.now.cells ≤ 512 →
        IfOk result (λ r. table_loss r ≤ table_loss p.now + table_loss v.now + 2 ^ 13) }
    ensures reach { p.now.cells ≤ 512 →
        IfOk result (λ r. table_reach r ≤ table_reach p.now + table_reach v.now + 1) }
{
    filled_sequence(rt, alloc, p, v)
}

fn filled_sequence<R: Threads + Sync>(
    rt: &R,
    alloc: Global,
    p: &Tri,
    v: &Context,
) -> Result<Context, NoMemory>
    requires cells { p.now.cells ≡ v.now.cells }
    requires reach { table_reach p.now + table_reach v.now < 2 ^ 20 }
    ensures value { IfOk result (λ r. r ≡ into_sequence_of p.now v.now) }
    ensures operands { IsTable p.now × IsTable v.now }
{
    let (cells, all) = (p.cells(), v.cells());
    let rows = summed_rows(rt, alloc, p, v, all)?;
    let entries = joined(alloc, &rows)?;
    Ok(Context::of_rows(cells, all, entries))
}

// The first rows, each from a task of its own.
fn summed_rows<R: Threads + Sync>(
    rt: &R,
    alloc: Global,
    p: &Tri,
    v: &Context,
    count: usize,
) -> Result<Vec<Vec<Enc>>, NoMemory>
    requires count { count ≤ p.now.cells }
    requires cells { p.now.cells ≡ v.now.cells }
    requires reach { table_reach p.now + table_reach v.now < 2 ^ 20 }
    ensures { IfOk result (λ list. flat_map vec_items list.items
        ≡ rows p.now.cells (into_sequence_entry (entry p.now) (entry v.now)) count) }
{
    (0..count)
        .into_par_iter()
        .with_min_len(1)
        .map(
            |c: usize| -> Result<Vec<Enc>, NoMemory>
                requires { (c < p.now.cells) × (p.now.cells ≡ v.now.cells)
                    × (table_reach p.now + table_reach v.now < 2 ^ 20) }
                ensures { IfOk result (λ sums. sums.items
                    ≡ row p.entry.now.cells (into_sequence_entry (entry p.entry.now) (entry v.entry.now)) c) }
            { summed_row(alloc, p, v, c) },
        )
        .collect::<Result<Vec<Vec<Enc>>, NoMemory>>(rt, alloc)?
}

// Row `c` of the context.
fn summed_row(alloc: Global, p: &Tri, v: &Context, c: usize) -> Result<Vec<Enc>, NoMemory>
    requires row { c < p.now.cells }
    requires cells { p.now.cells ≡ v.now.cells }
    requires reach { table_reach p.now + table_reach v.now < 2 ^ 20 }
    ensures { IfOk result (λ sums. sums.items
        ≡ row p.now.cells (into_sequence_entry (entry p.now) (entry v.now)) c) }
{
    let mut sums = zeros(alloc, p.cells() - c)?;
    add_rows(&mut sums, p, v, c);
    Ok(sums)
}

// The same, onto zeros.
fn add_rows(sums: &mut [Enc], p: &Tri, v: &Context, c: usize)
    requires row { c < p.now.cells }
    requires cells { p.now.cells ≡ v.now.cells }
    requires reach { table_reach p.now + table_reach v.now < 2 ^ 20 }
    requires width { length sums.old ≡ p.now.cells - c }
    requires zeros { (i : ℕ) → i < p.now.cells - c → slice_index_or sums.old i exact_zero ≡ exact_zero }
    ensures width { length sums.new ≡ length sums.old }
    ensures row { (i : ℕ) → i < p.now.cells - c →
        slice_index_or sums.new i exact_zero ≡ into_sequence_entry (entry p.now) (entry v.now) c (c + i) }
{
    let cells = p.cells();
    let live = p.live().min(v.live());
    let right = v.table().items();
    for a in 0..live.min(c + 1) {
        let factor = p.get(a, c);
        if !factor.is_zero() {
            let begin = place_of(cells, a, c, right.len());
            add_terms(&factor, &right[begin..begin + (cells - c)], sums, 0);
        }
    }
}
