//! Runs of consecutive cells.
ghost use Rattle.std.specs.Prelude.{◌≡◌, ℕ, List, [], ◌∷◌, ◌++◌, IfOk, All};
ghost use Rattle.cg_ranges.specs.Runs.{runs_of, marked, IsRunOf};

use cg_num::NoMemory;
use std::alloc::Global;

// The runs of the cells that are marked.
pub(crate) fn runs(alloc: Global, marks: &[bool]) -> Result<Vec<(usize, usize)>, NoMemory>
    ensures { IfOk result (λ runs. runs.items ≡ runs_of (marked marks.now)) }
{
    let mut runs = Vec::new(alloc);
    for cell in 0..marks.len() {
        if marks[cell] {
            add_cell(&mut runs, cell)?;
        }
    }
    Ok(runs)
}

// One more cell, younger than all of these.
fn add_cell(runs: &mut Vec<(usize, usize)>, cell: usize) -> Result<(), NoMemory>
    requires { All (IsRunOf cell) runs.old.items }
    ensures { (cells : List ℕ) → runs.old.items ≡ runs_of cells →
        IfOk result (λ _. runs.new.items ≡ runs_of (cells ++ cell ∷ [])) }
{
    let count = runs.len();
    if count > 0 && runs[count - 1].1 + 1 == cell {
        runs[count - 1].1 = cell;
    } else {
        runs.push((cell, cell))?;
    }
    Ok(())
}
