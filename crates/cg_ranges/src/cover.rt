//! Which cells cover a target.
ghost use Rattle.std.specs.Prelude.{◌≡◌, ◌≤◌, IsSome, IfOk, IfSome, All, length, map};
ghost use Rattle.cg_marginal.specs.Marginal.{pairs_of, cell_count};
ghost use Rattle.cg_ranges.specs.Cover.{lower_at, cells_of, lower_sum, is_taken, cover};
ghost use Rattle.cg_ranges.specs.Order.{cell_of, lower_of, IsInOrder};
ghost use Rattle.cg_ranges.specs.Ranges.{ranges_of};
ghost use Rattle.cg_ranges.specs.Runs.{IsRunOf};

use crate::range::Ranges;
use crate::runs::runs;
use cg_marginal::{Marginal, Pairs};
use cg_num::NoMemory;
use std::alloc::Global;
use std::cmp::Reverse;

/// The fewest cells whose lower ends together reach the target, in parts per million: those with the greatest lower
/// ends, and of two that are as great the older one first.
///
/// It is not for `Impossible`, which has no cell.
pub fn ranges(alloc: Global, m: &Marginal, target: u32) -> Result<Ranges, NoMemory>
    requires possible { IsSome (pairs_of m.now) }
    requires few { cell_count m.now ≤ 512 }
    requires target { target ≤ 998464 }
    ensures value { IfOk result (λ r. IfSome (pairs_of m.now) (λ pairs. r ≡ ranges_of pairs target)) }
    ensures enough { IfOk result (λ r. target ≤ r.sum) }
    ensures runs { IfOk result (λ r. All (IsRunOf (cell_count m.now)) r.runs) }
{
    match m {
        Marginal::Impossible => unreachable!(),
        Marginal::Pairs(pairs) => {
            let (sum, marks) = taken(alloc, pairs, target)?;
            Ok(Ranges::new(sum, runs(alloc, marks.as_slice())?))
        }
    }
}

// What the lower ends of the taken cells sum to, and a mark for each cell.
fn taken(alloc: Global, pairs: &Pairs, target: u32) -> Result<(u32, Vec<bool>), NoMemory>
    requires few { length pairs.now ≤ 512 }
    requires target { target ≤ 998464 }
    ensures sum { IfOk result (λ r. r.0 ≡ lower_sum pairs.now (cover pairs.now target)) }
    ensures marks { IfOk result (λ r. r.1.items ≡ map (is_taken pairs.now target) (cells_of pairs.now)) }
    ensures enough { IfOk result (λ r. target ≤ r.0) }
{
    let ends = ends_in_order(alloc, pairs)?;
    let mut sum = 0;
    let mut marks = vec![in alloc; false; pairs.len()]?;
    for &(Reverse(lower), cell) in ends.iter() {
        if sum >= target {
            break;
        }
        sum += lower;
        marks[cell] = true;
    }
    Ok((sum, marks))
}

// The lower ends with their cells, the greatest first and of equal ones the older.
fn ends_in_order(alloc: Global, pairs: &Pairs) -> Result<Vec<(Reverse<u32>, usize)>, NoMemory>
    ensures order { IfOk result (λ ends. IsInOrder pairs.now (map cell_of ends.items)) }
    ensures lower { IfOk result (λ ends. All (λ end. lower_of end ≡ lower_at pairs.now (cell_of end)) ends.items) }
{
    let mut ends = Vec::new(alloc);
    for cell in 0..pairs.len() {
        ends.push((Reverse(pairs.pair(cell).0), cell))?;
    }
    ends.sort_unstable();
    Ok(ends)
}
