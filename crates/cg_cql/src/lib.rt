//! The reader of OxCal's model files: the models that they spell, and single statements.
//!
//! A file is read token by token, without recursion: the reader keeps the open groups, and the part of a statement in
//! which it stands. It answers with the model that the file spells, or with the line and the cause of the first token at
//! which reading can't go on, want of memory aside. Another call tells the line on which a file names its curve.
#![tactic(auto)]

mod argument;
mod model;
mod name;
mod naming;
mod node;
mod option;
mod read;
mod reader;
mod statement;

pub use model::{read_model, read_statement};
pub use naming::curve_line;
