//! The posterior of an event by listing every dating of a small model, as a check on ways that are faster.
//!
//! It is slow: it tries each list of cells, one for each event, and tests each two events.
#![tactic(auto)]

mod listing;
mod order;
mod pairs;
mod path;
mod paths;
mod size;
#[cfg(test)]
mod tests;

pub use listing::{list_total, list_total_at};
pub use size::ListingFault;
