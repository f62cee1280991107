//! How large a model may be, and the span weights.
ghost use Rattle.std.specs.Prelude.{◌≡◌, ◌<◌, ◌*◌, ◌^◌, ◌↔◌, IsTrue, length, slice_index};
ghost use Rattle.std.specs.Option.{SomeIff};
ghost use Rattle.cg_meaning.specs.Pairs.{factorial, pair_at, span_weight};
ghost use Rattle.cg_meaning.specs.Sums.{product_by};
ghost use Rattle.cg_listing.specs.Listing.{largest_sum};

use cg_num::NoMemory;

/// Why a model isn't listed.
#[derive(Clone, Copy, Debug, PartialEq, Eq)]
pub enum ListingFault {
    /// The sum of all weights could pass 128 bits.
    TooLarge,
    /// There was no memory for it.
    NoMemory,
}

impl From<NoMemory> for ListingFault {
    ghost use Rattle.std.specs.Prelude.{◌≡◌};
    ghost use Rattle.cg_listing.specs.declared.size.ListingFault.TheVariants.{NoMemory};

    ghost from_gives = { λ _ e. e ≡ NoMemory };

    fn from(_refused: NoMemory) -> ListingFault {
        ListingFault::NoMemory
    }
}

/// Whether the sum of the weights of this many events on this many cells is sure to fit.
pub(crate) fn is_small(cells: usize, events: u32) -> bool
    ensures { IsTrue result ↔ (largest_sum cells events < 2 ^ 128) }
{
    match largest_weight(cells) {
        Some(weight) => weight.checked_pow(events).is_some(),
        None => events == 0,
    }
}

fn largest_weight(cells: usize) -> Option<u128>
    ensures { SomeIff result (cells * factorial cells < 2 ^ 128) (cells * factorial cells) }
{
    (cells as u128).checked_mul(factorial(cells)?)
}

fn factorial(n: usize) -> Option<u128>
    ensures { SomeIff result (factorial n < 2 ^ 128) (factorial n) }
{
    let mut product: u128 = 1;
    for done in 0..n {
        product = product.checked_mul(done as u128 + 1)?;
    }
    Some(product)
}

/// The product of the span weights of these Boundary pairs, where the events are at these cells.
pub(crate) fn span_product(
    grid_cells: usize,
    cells: &[usize],
    pairs: &[Option<(usize, usize)>],
) -> u128
    requires { factorial grid_cells ^ length pairs.now < 2 ^ 128 }
    ensures { result ≡ product_by (λ pair. span_weight grid_cells (pair_at cells.now pair)) pairs.now }
{
    let mut product: u128 = 1;
    for pair in pairs {
        product *= span_weight(grid_cells, pair_at(cells, *pair));
    }
    product
}

// the cells of a pair
fn pair_at(cells: &[usize], pair: Option<(usize, usize)>) -> Option<(usize, usize)>
    ensures { result ≡ pair_at cells.now pair }
{
    match pair {
        None => None,
        Some((before, after)) => Some((cell_of(cells, before), cell_of(cells, after))),
    }
}

// the cell of an event, and 0 past the last
fn cell_of(cells: &[usize], event: usize) -> usize
    ensures { result ≡ slice_index cells.now event }
{
    cells.get(event).copied().unwrap_or(0)
}

fn span_weight(cells: usize, pair: Option<(usize, usize)>) -> u128
    requires { factorial cells < 2 ^ 128 }
    ensures { result ≡ span_weight cells pair }
{
    match pair {
        None => 1,
        Some((first, last)) => {
            let span = last.saturating_sub(first) as u128 + 1;
            factorial(cells).unwrap() / span
        }
    }
}
