//! Slots in three lists, each a ring of links both ways.
//!
//! Slots are numbered from 0. A slot is in one list or in none. The ring of a list also goes through an end of its own,
//! which stands before the first slot and after the last, so that no link is ever missing.
#![tactic(auto)]

mod links;
mod rings;
mod steps;
mod which;

pub use rings::Rings;
pub use steps::Steps;
pub use which::Which;
