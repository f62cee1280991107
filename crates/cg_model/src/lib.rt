//! The tree of a model with its limits, and the grid of years on which its events are dated.
//!
//! A `ModelTree` has at most 100 events and 60 groups, and a depth of at most 16. A Boundary stands only directly in
//! a Sequence. The values of its datings are in their ranges.
#![tactic(auto)]

mod count;
mod dating;
mod find;
mod grid;
mod group;
mod model;
mod name;
mod node;
mod place;
mod view;

pub use dating::Dating;
pub use find::Found;
pub use grid::{Grid, GridLimit};
pub use group::GroupKind;
pub use model::{Limit, ModelTree};
pub use name::{Name, NameFault};
pub use node::{Members, Node};
pub use view::View;
