//! The tokens of OxCal's model files, and the cutting of bytes into them.
//!
//! Bytes are cut into pieces, one behind another: words, texts in quotes, decimal numbers, marks of one byte, and the
//! gaps between them, which are blanks and comments. The last piece is the end of the bytes, or what is no token. A
//! piece never depends on what was cut before it.
#![tactic(auto)]

mod cut;
mod laws;
mod lexer;
mod token;

pub use laws::{each_file_is_cut_once, pieces_stand_by_themselves};
pub use lexer::Lexer;
pub use token::{Mark, Token};
