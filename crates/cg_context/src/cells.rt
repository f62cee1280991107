//! Sums of which each cell has one.
ghost use Rattle.std.specs.Prelude.{◌≡◌, ◌+◌, ◌-◌, ◌^◌, ◌<◌, ◌≤◌, IfOk, OnOk, All, replicate};
ghost use Rattle.cg_enc.specs.Enclosure.{exact_zero, IsExponent};
ghost use Rattle.cg_table.specs.Table.{entry, table_reach};
ghost use Rattle.cg_context.specs.Columns.{AreColumns};

use crate::context::Context;
use cg_enc::Enc;
use cg_num::NoMemory;
use cg_table::{Row, push_zeros};
use std::alloc::Global;

pub(crate) fn zeros(alloc: Global, cells: usize) -> Result<Vec<Enc>, NoMemory>
    ensures { IfOk result (λ sums. sums.items ≡ replicate cells exact_zero) }
{
    let mut sums = Vec::new(alloc);
    push_zeros(&mut sums, cells)?;
    Ok(sums)
}

// Adds the coefficients of row `a`, but for the first of them with `passed` 1.
pub(crate) fn add_entries(sums: &mut [Enc], x: &Context, a: usize, passed: usize)
    requires row { a < x.now.cells }
    requires passed { passed ≤ 1 }
    requires reach { table_reach x.now < 2 ^ 20 }
    requires sums { AreColumns (entry x.now) x.now.cells (1 - passed) a sums.old }
    ensures { AreColumns (entry x.now) x.now.cells (1 - passed) (a + 1) sums.new }
{
    for y in a + passed..x.cells() {
        sums[y] = sums[y].plus(&x.get(a, y));
    }
}

// The row of these entries.
pub(crate) fn row_of(sums: &Vec<Enc>) -> Result<Row, NoMemory>
    requires { All (λ e. IsExponent (2 ^ 60) e.exp) sums.now.items }
    ensures { IfOk result (λ row. row ≡ sums.now.items) }
{
    let mut row = Row::new(*sums.allocator());
    for e in sums {
        row.push(*e)?;
    }
    Ok(row)
}
