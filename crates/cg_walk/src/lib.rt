//! What a print gets from a cache, and in which order it claims, makes and publishes. Definitions and laws.
#![tactic(auto)]

mod laws;

pub use laws::{deeds_leave_less, prints_are_short, prints_are_walks};
