//! The codes of the three kinds of evaluations: rows, tables and marginals.
ghost use Rattle.std.specs.Prelude.{◌≡◌, ◌<◌, [], ◌∷◌, ◌++◌, IfOk, All};
ghost use Rattle.cg_meaning.specs.Tree.{count_all, datings_of, none, more};
ghost use Rattle.cg_model.specs.Dating.{dating_of};
ghost use Rattle.cg_model.specs.Limits.{IsInRange, IsWithinLimits};
ghost use Rattle.cg_model.specs.Node.{tree_of};
ghost use Rattle.cg_code.specs.Code.{code_of, grid_bytes};
ghost use Rattle.cg_code.specs.Content.{Row, Table, Marginal};

use crate::code::Code;
use cg_model::{Dating, Grid, GroupKind, ModelTree, Node};
use cg_num::NoMemory;
use std::alloc::Global;

/// The code of the row of a dating on a grid, with the curve of this number, 0 for none.
pub fn row_code(alloc: Global, dating: &Dating, grid: &Grid, curve: u8) -> Result<Code, NoMemory>
    requires { IsInRange (dating_of dating.now) }
    ensures { IfOk result (λ code. code ≡ code_of (Row (dating_of dating.now)) grid.now curve) }
{
    let mut code = head(alloc, b"R", grid, curve)?;
    code.push_dating(dating)?;
    Ok(code)
}

/// The code of the table of a node of a model on a grid, with the curve of this number, 0 for none.
pub fn table_code(alloc: Global, node: &Node, grid: &Grid, curve: u8) -> Result<Code, NoMemory>
    requires limits { IsWithinLimits (more (tree_of node.now) none) }
    requires ranged { All IsInRange (datings_of (tree_of node.now)) }
    ensures { IfOk result (λ code. code ≡ code_of (Table (tree_of node.now)) grid.now curve) }
{
    let mut code = head(alloc, b"T", grid, curve)?;
    code.push_node(node)?;
    Ok(code)
}

/// The code of the marginal of an event of a model on a grid, with the curve of this number, 0 for none. Events are
/// counted from 0 in the order of the text.
pub fn marginal_code(
    alloc: Global,
    model: &ModelTree,
    event: u32,
    grid: &Grid,
    curve: u8,
) -> Result<Code, NoMemory>
    requires { event < count_all model.now.top }
    ensures { IfOk result (λ code. code ≡ code_of (Marginal model.now.top event) grid.now curve) }
{
    let mut code = head(alloc, b"M", grid, curve)?;
    code.push_kind(GroupKind::Phase)?;
    code.push_members(model.top())?;
    code.push_two(event as u16)?;
    Ok(code)
}

// the letter of a kind of evaluation, the grid, and the number of the curve
fn head(alloc: Global, letter: &[u8], grid: &Grid, curve: u8) -> Result<Code, NoMemory>
    ensures { IfOk result (λ code. code ≡ letter.now ++ (grid_bytes grid.now ++ curve ∷ [])) }
{
    let mut code = Code::new(alloc);
    code.push(letter)?;
    code.push_grid(grid)?;
    code.push(&[curve])?;
    Ok(code)
}
