//! Calls on tables and contexts whose rows are computed side by side. Each gives what its plain form gives, to the bit.
#![tactic(auto)]

mod items;
mod order;
mod sequence;
mod terms;

pub use items::back_wide;
pub use order::then_wide;
pub use sequence::into_sequence_wide;
