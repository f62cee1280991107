//! The context of the whole tree.
ghost use Rattle.std.specs.Prelude.{◌≡◌, ◌≤◌, IfOk, replicate};
ghost use Rattle.cg_enc.specs.Rounding.{of_whole};
ghost use Rattle.cg_table.specs.Table.{EnclosesTable, table_loss, table_reach};
ghost use Rattle.cg_path.specs.Contexts as exact;
ghost use Rattle.cg_context.specs.Formulas.{root_context};

use crate::context::Context;
use cg_enc::Enc;
use cg_num::NoMemory;
use std::alloc::Global;

/// The context of the whole tree: what begins at the oldest cell counts once. A grid of 2^33 cells or more has no room
/// in memory.
pub fn root(alloc: Global, cells: usize) -> Result<Context, NoMemory>
    ensures value { IfOk result (λ x. x ≡ root_context cells) }
    ensures encloses { IfOk result (λ x. EnclosesTable x exact.root 1) }
    ensures loss { IfOk result (λ x. table_loss x ≡ 0) }
    ensures reach { IfOk result (λ x. table_reach x ≤ 1) }
{
    filled_root(alloc, cells)
}

fn filled_root(alloc: Global, cells: usize) -> Result<Context, NoMemory>
    ensures { IfOk result (λ x. x ≡ root_context cells) }
{
    if cells >= 1 << 33 {
        return Err(NoMemory);
    }
    let entries = ones(alloc, cells)?;
    Ok(Context::of_rows(cells, cells.min(1), entries))
}

// The oldest row.
fn ones(alloc: Global, cells: usize) -> Result<Vec<Enc>, NoMemory>
    ensures { IfOk result (λ row. row.items ≡ replicate cells (of_whole 1)) }
{
    let mut row = Vec::new(alloc);
    for _ in 0..cells {
        row.push(Enc::of_whole(1))?;
    }
    Ok(row)
}
