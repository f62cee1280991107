//! Rows of enclosures, one for each cell of a grid, and triangular tables, one for each two cells.
#![tactic(auto)]

mod groups;
mod join;
mod limits;
mod order;
mod row;
mod side;
mod single;
mod span;
mod steps;
mod tri;

pub use groups::{after_group, before_group};
pub use join::{add_row, push_zeros};
pub use order::{then, then_row};
pub use row::Row;
pub use side::beside;
pub use single::{identity, identity_rows, of_row, total};
pub use span::{powers, spanned};
pub use steps::Steps;
pub use tri::{Tri, place_of};
