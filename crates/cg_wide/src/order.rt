//! Tables of events in order. A row is one task: each row of the second table, times one entry of the first, is added to
//! a row of sums. The terms of a sum come in the order of the formula, so its bits are the formula's.
ghost use Rattle.std.specs.Prelude.{◌≡◌, ◌+◌, ◌-◌, ◌*◌, ◌^◌, ◌<◌, ◌≤◌, ℕ};
ghost use Rattle.std.specs.Prelude.{IfOk, length, slice_index_or, vec_items};
ghost use Rattle.std.specs.List.{flat_map};
ghost use Rattle.cg_enc.specs.Enclosure.{exact_zero};
ghost use Rattle.cg_table.specs.Exact.{exact_then};
ghost use Rattle.cg_table.specs.Formulas.{then_entry, then_of};
ghost use Rattle.cg_table.specs.Live.{live_rows};
ghost use Rattle.cg_table.specs.Table.{IsTable, EnclosesTable, entry, row, rows, table_loss, table_reach};

use crate::terms::{add_terms, joined, zeros};
use cg_enc::Enc;
use cg_num::NoMemory;
use cg_table::{Tri, place_of};
use rayon::prelude::*;
use std::alloc::Global;
use std::sync::Wait;
use std::thread::Threads;

/// What `then` gives, its rows shared among threads: at `(a, b)` the sum for `c` from `a` to `b` of what begins at `a`
/// and reaches `c`, times what begins at `c` and reaches `b`.
pub fn then_wide<R: Threads + Wait + Sync>(
    rt: &R,
    alloc: Global,
    p: &Tri,
    t: &Tri,
) -> Result<Tri, NoMemory>
    requires cells { p.now.cells ≡ t.now.cells }
    requires reach { table_reach p.now + table_reach t.now < 2 ^ 20 }
    ensures value { IfOk result (λ r. r ≡ then_of p.now t.now) }
    ensures encloses { (x y : ℕ → ℕ → ℕ) (d e : ℕ) → 0 < d → 0 < e →
        EnclosesTable p.now x d → EnclosesTable t.now y e →
        IfOk result (λ r. EnclosesTable r (exact_then x y) (d * e)) }
    ensures loss { p.now.cells ≤ 512 →
        IfOk result (λ r. table_loss r ≤ table_loss p.now + table_loss t.now + 2 ^ 13) }
    ensures reach { p.now.cells ≤ 512 →
        IfOk result (λ r. table_reach r ≤ table_reach p.now + table_reach t.now + 1) }
{
    filled_then(rt, alloc, p, t)
}

fn filled_then<R: Threads + Sync>(rt: &R, alloc: Global, p: &Tri, t: &Tri) -> Result<Tri, NoMemory>
    requires cells { p.now.cells ≡ t.now.cells }
    requires reach { table_reach p.now + table_reach t.now < 2 ^ 20 }
    ensures value { IfOk result (λ r. r ≡ then_of p.now t.now) }
    ensures operands { IsTable p.now × IsTable t.now }
{
    let (cells, live) = (t.cells(), p.live());
    let rows = joined_rows(rt, alloc, p, t, live)?;
    let entries = joined(alloc, &rows)?;
    Ok(Tri::of_rows(cells, live, entries))
}

// The first rows, each from a task of its own.
fn joined_rows<R: Threads + Sync>(
    rt: &R,
    alloc: Global,
    p: &Tri,
    t: &Tri,
    live: usize,
) -> Result<Vec<Vec<Enc>>, NoMemory>
    requires live { live ≤ live_rows p.now }
    requires cells { p.now.cells ≡ t.now.cells }
    requires reach { table_reach p.now + table_reach t.now < 2 ^ 20 }
    ensures { IfOk result (λ list. flat_map vec_items list.items
        ≡ rows p.now.cells (then_entry (entry p.now) (entry t.now)) live) }
{
    (0..live)
        .into_par_iter()
        .with_min_len(1)
        .map(
            |a: usize| -> Result<Vec<Enc>, NoMemory>
                requires { (a < live_rows p.now) × (p.now.cells ≡ t.now.cells)
                    × (table_reach p.now + table_reach t.now < 2 ^ 20) }
                ensures { IfOk result (λ sums. sums.items
                    ≡ row p.entry.now.cells (then_entry (entry p.entry.now) (entry t.entry.now)) a) }
            { joined_row(alloc, p, t, a) },
        )
        .collect::<Result<Vec<Vec<Enc>>, NoMemory>>(rt, alloc)?
}

// Row `a` of what `t` has after what `p` has.
fn joined_row(alloc: Global, p: &Tri, t: &Tri, a: usize) -> Result<Vec<Enc>, NoMemory>
    requires row { a < live_rows p.now }
    requires cells { p.now.cells ≡ t.now.cells }
    requires reach { table_reach p.now + table_reach t.now < 2 ^ 20 }
    ensures { IfOk result (λ sums. sums.items
        ≡ row p.now.cells (then_entry (entry p.now) (entry t.now)) a) }
{
    let mut sums = zeros(alloc, p.cells() - a)?;
    join_row(&mut sums, p, t, a);
    Ok(sums)
}

// The same, onto zeros.
fn join_row(sums: &mut [Enc], p: &Tri, t: &Tri, a: usize)
    requires row { a < live_rows p.now }
    requires cells { p.now.cells ≡ t.now.cells }
    requires reach { table_reach p.now + table_reach t.now < 2 ^ 20 }
    requires width { length sums.old ≡ p.now.cells - a }
    requires zeros { (i : ℕ) → i < p.now.cells - a → slice_index_or sums.old i exact_zero ≡ exact_zero }
    ensures width { length sums.new ≡ length sums.old }
    ensures row { (i : ℕ) → i < p.now.cells - a →
        slice_index_or sums.new i exact_zero ≡ then_entry (entry p.now) (entry t.now) a (a + i) }
{
    let right = t.items();
    let cells = p.cells();
    for c in a..t.live() {
        let factor = p.get(a, c);
        if !factor.is_zero() {
            let begin = place_of(cells, c, c, right.len());
            add_terms(&factor, &right[begin..begin + (cells - c)], sums, c - a);
        }
    }
}
