//! Tests of the turn lock: seats that write lines on one sheet, in turns and side by side.
#![tactic(auto)]

mod sheet;
mod writing;

pub use sheet::{Line, Sheet};
pub use writing::{write_in_turns, write_side_by_side};

#[cfg(test)]
mod tests;
