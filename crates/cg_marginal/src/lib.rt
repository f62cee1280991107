//! The posterior of an event, as bounds in whole parts per million at each cell of a grid.
#![tactic(auto)]

mod marginal;
mod parts;

pub use marginal::{Marginal, Pairs};
pub use parts::finish;
