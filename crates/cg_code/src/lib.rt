//! Codes of evaluations: the row of a dating, the table of a node, the marginal of an event.
//!
//! A code has the grid, the number of the curve and the content, and no names. Within the limits of a model equal codes
//! have these equal, names aside.
#![tactic(auto)]

mod code;
mod evaluation;
mod fields;
mod laws;

pub use code::Code;
pub use evaluation::{marginal_code, row_code, table_code};
pub use laws::equal_codes_have_equal_contents;
