//! The canonical text of a model, in the language of OxCal's model files.
//!
//! A model has one text: its curve, and a line for each statement, one blank deeper for each group around it. The
//! grammar reads that text as the model, where each name can stand between quotes and isn't taken for anything else.
#![tactic(auto)]

mod argument;
mod laws;
mod line;
mod model;
mod statement;

pub use laws::what_is_written_is_read;
pub use model::{model_text, write_model};
