//! Rows, tables and marginals as messages: each is kept under its code, and made from the messages of its parts.
//!
//! A message holds the value of all that its code stands for, by the curves that it was made by. So two messages with
//! equal codes and equal curves are equal.
#![tactic(auto)]

mod arrange;
mod arranged;
mod body;
mod datings;
mod down;
mod element;
mod make;
mod message;
mod parts;
mod pass;
mod preceding;
mod rows;
mod size;
mod tables;

pub use body::Body;
pub use make::{make_marginal, make_row, make_table};
pub use message::Message;
pub use parts::Parts;
