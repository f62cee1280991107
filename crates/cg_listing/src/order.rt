//! Which lists of cells are allowed datings.
ghost use Rattle.std.specs.Prelude.{◌≡◌, ◌<◌, All, length};
ghost use Rattle.std.specs.List.{list_all, zip};
ghost use Rattle.cg_meaning.specs.Tree.{count_all, datings_of_all};
ghost use Rattle.cg_meaning.specs.Order.{keeps_order, is_ordered};
ghost use Rattle.cg_meaning.specs.Scene.{is_dated};

use crate::path::Path;
use cg_model::{Grid, ModelTree};

/// Whether each two events, at these paths and cells, keep the order.
pub(crate) fn is_ordered(paths: &[Path], cells: &[usize]) -> bool
    ensures { result ≡ is_ordered paths.now cells.now }
{
    paths.iter().zip(cells).all(|(path, cell)| keeps_order_with_all(path, *cell, paths, cells))
}

fn keeps_order_with_all(path: &Path, cell: usize, paths: &[Path], cells: &[usize]) -> bool
    ensures { result ≡ list_all (λ other. keeps_order (path.now, cell) other) (zip paths.now cells.now) }
{
    paths.iter().zip(cells).all(|(other, other_cell)| keeps_order(path, cell, other, *other_cell))
}

fn keeps_order(path: &Path, cell: usize, other: &Path, other_cell: usize) -> bool
    ensures { result ≡ keeps_order (path.now, cell) (other.now, other_cell) }
{
    !path.precedes(other) || cell <= other_cell
}

/// Whether each event, at its cell, is dated as the model says.
pub(crate) fn is_dated(model: &ModelTree, grid: &Grid, cells: &[usize]) -> bool
    requires each { length cells.now ≡ count_all model.now.top }
    requires within { All (λ cell. cell < grid.now.cells) cells.now }
    ensures { result ≡ is_dated grid.now (datings_of_all model.now.top) cells.now }
{
    for event in 0..model.events() {
        if !grid.admits(model.dating(event), cells[event as usize]) {
            return false;
        }
    }
    true
}
