//! From an event's dating to its row of weights: bounds of the likelihood at each cell of a grid.
//!
//! A dating without an error weighs 1 where it may be. One with an error weighs as Bronk Ramsey 1995 has it, with e^-z
//! between two Taylor bounds and the sigma of the curve on its straight line; `covers` says whether it can be weighed.
#![tactic(auto)]

mod cover;
mod distance;
mod laws;
mod row;

pub use cover::{LikeFault, covers};
pub use laws::weights_enclose;
pub use row::weights;
