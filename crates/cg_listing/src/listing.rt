//! The sums over all datings of a small model.
ghost use Rattle.std.specs.Prelude.{◌≡◌, ◌<◌, ◌≤◌, ◌-◌, ◌^◌, ◌++◌, ◌↔◌, All, Some, OnOk, IfOk, length};
ghost use Rattle.std.specs.Option.{ForSome};
ghost use Rattle.cg_meaning.specs.Tree.{count_all, paths_of, root_of};
ghost use Rattle.cg_meaning.specs.Scene.{scene_on};
ghost use Rattle.cg_meaning.specs.Sums.{sum_over};
ghost use Rattle.cg_meaning.specs.Pairs.{boundary_pairs};
ghost use Rattle.cg_meaning.specs.Posterior.{total, total_at};
ghost use Rattle.cg_meaning.specs.Weights.{ones};
ghost use Rattle.cg_listing.specs.Listing.{largest_sum, is_listed, share_of, IsBegun};

use crate::order::{is_dated, is_ordered};
use crate::pairs::pairs;
use crate::path::Path;
use crate::paths::paths;
use crate::size::{ListingFault, is_small, span_product};
use cg_model::{Grid, ModelTree};
use cg_num::NoMemory;
use std::alloc::Global;

/// The sum of the weights of all allowed datings, where each event has the weight 1 at each cell. Exact.
///
/// The weight of a dating is then the product of its span weights: that of an event with a Boundary pair is the factorial
/// of the number of cells, over the number of cells from the one Boundary to the other. `TooLarge` comes exactly where the sum isn't sure to fit.
pub fn list_total(alloc: Global, model: &ModelTree, grid: &Grid) -> Result<u128, ListingFault>
    ensures total { IfOk result (λ z. z ≡ total (root_of model.now) (scene_on grid.now) ones) }
    ensures too_large { (result ≡ Err ListingFault.TooLarge) ↔ (2 ^ 128 ≤ largest_sum grid.now.cells (count_all model.now.top)) }
{
    list(alloc, model, grid, None)
}

/// The same sum over the datings with this event at this cell: events are counted from 0 in the order of the text.
pub fn list_total_at(
    alloc: Global,
    model: &ModelTree,
    grid: &Grid,
    event: u32,
    cell: usize,
) -> Result<u128, ListingFault>
    requires { event < count_all model.now.top }
    ensures total_at { IfOk result (λ n. n ≡ total_at (root_of model.now) (scene_on grid.now) ones event cell) }
    ensures too_large { (result ≡ Err ListingFault.TooLarge) ↔ (2 ^ 128 ≤ largest_sum grid.now.cells (count_all model.now.top)) }
{
    list(alloc, model, grid, Some((event as usize, cell)))
}

fn list(
    alloc: Global,
    model: &ModelTree,
    grid: &Grid,
    held: Option<(usize, usize)>,
) -> Result<u128, ListingFault>
    requires { ForSome held (λ held. held.0 < count_all model.now.top) }
    ensures sum { IfOk result (λ sum. sum ≡ sum_over grid.now.cells (count_all model.now.top)
        (λ cells. share_of (root_of model.now) (scene_on grid.now) held cells)) }
    ensures too_large { (result ≡ Err ListingFault.TooLarge) ↔ (2 ^ 128 ≤ largest_sum grid.now.cells (count_all model.now.top)) }
{
    if !is_small(grid.cells(), model.events()) {
        return Err(ListingFault::TooLarge);
    }
    let listing = Listing {
        model,
        grid,
        paths: paths(alloc, model)?,
        pairs: pairs(alloc, model)?,
        held,
    };
    let mut cells = Vec::new(alloc);
    Ok(sum_of_lists(&listing, &mut cells)?)
}

/// A small model on a grid, with the path to each event, its Boundary pair, and the event that is held at a cell, if one is.
#[derive(Drop)]
struct Listing<'a> {
    model: &'a ModelTree,
    grid: &'a Grid,
    paths: Vec<Path>,
    pairs: Vec<Option<(usize, usize)>>,
    held: Option<(usize, usize)>,
    ghost paths_are: { paths.items ≡ paths_of (root_of model.now) },
    ghost pairs_are: { pairs.items ≡ boundary_pairs (root_of model.now) },
    ghost is_small: { largest_sum grid.now.cells (count_all model.now.top) < 2 ^ 128 },
    ghost is_event: { ForSome held (λ held. held.0 < count_all model.now.top) },
}

// over all lists of cells that begin with these
fn sum_of_lists(listing: &Listing, cells: &mut Vec<usize>) -> Result<u128, NoMemory>
    requires { IsBegun listing.now.grid.now.cells (count_all listing.now.model.now.top) cells.old.items }
    ensures sum { IfOk result (λ sum. sum ≡ sum_over listing.now.grid.now.cells (count_all listing.now.model.now.top - length cells.old.items)
        (λ later. share_of (root_of listing.now.model.now) (scene_on listing.now.grid.now) listing.now.held (cells.old.items ++ later))) }
    ensures same { OnOk result (cells.new.items ≡ cells.old.items) }
{
    if cells.len() == listing.model.events() as usize {
        return Ok(listing.share(cells));
    }
    let mut sum: u128 = 0;
    for cell in 0..listing.grid.cells() {
        cells.push(cell)?;
        sum += sum_of_lists(listing, cells)?;
        cells.pop();
    }
    Ok(sum)
}

impl<'a> Listing<'a> {
    // what a list with a cell for each event adds
    fn share(&self, cells: &[usize]) -> u128
        requires each { length cells.now ≡ count_all self.now.model.now.top }
        requires within { All (λ cell. cell < self.now.grid.now.cells) cells.now }
        ensures { result ≡ share_of (root_of self.now.model.now) (scene_on self.now.grid.now) self.now.held cells.now }
    {
        if !self.lists(cells) {
            return 0;
        }
        span_product(self.grid.cells(), cells, &self.pairs)
    }

    fn lists(&self, cells: &[usize]) -> bool
        requires each { length cells.now ≡ count_all self.now.model.now.top }
        requires within { All (λ cell. cell < self.now.grid.now.cells) cells.now }
        ensures { result ≡ is_listed (root_of self.now.model.now) (scene_on self.now.grid.now) self.now.held cells.now }
    {
        let allowed = is_ordered(&self.paths, cells) && is_dated(self.model, self.grid, cells);
        match self.held {
            None => allowed,
            Some((event, cell)) => allowed && cells[event] == cell,
        }
    }
}
