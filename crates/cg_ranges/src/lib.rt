//! The years that cover most of a posterior, by the lower ends of its pairs.
#![tactic(auto)]

mod cover;
mod laws;
mod range;
mod runs;

pub use cover::ranges;
pub use laws::ranges_cover;
pub use range::Ranges;
