//! The pieces of which texts are made, and how each is cut off the front of bytes.
//!
//! Words that stand in front, texts of letters and digits between quotes, whole numbers, and the names of models and
//! curves. Each reader answers `None` exactly where no such piece stands in front.
#![tactic(auto)]

mod name;
mod number;
mod piece;

pub use name::{is_name, name_at, name_of};
pub use number::{digits_len, number_at, number_of};
pub use piece::{after, text_at};
