//! Contexts: the coefficients with which the table of an element enters the total, rounded outward.
#![tactic(auto)]

mod cells;
mod context;
mod end;
mod groups;
mod items;
mod later;
mod leaf;
mod member;
mod sequence;
mod side;
mod span;
mod tree;

pub use context::Context;
pub use end::at_end;
pub use groups::{into_after, into_before};
pub use items::back;
pub use later::back_row;
pub use leaf::at_leaf;
pub use member::at_member;
pub use sequence::into_sequence;
pub use side::into_phase;
pub use span::into_span;
pub use tree::root;
