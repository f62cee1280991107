//! The grammar of OxCal's model files: which tokens spell which chronology, and why a token can't be read on.
//!
//! A text is a list of statements: datings, Boundaries and groups, and at the top also Plots, Options and Curves. Rules
//! that are built from the left say what a text spells. A table says, token by token, where reading can't go on, and
//! why. Together they decide each list of bytes, and what is spelled is a model within its limits. The calls here
//! answer for one word, one place or one argument. They take no memory.
#![tactic(auto)]

mod arguments;
mod command;
mod fault;
mod laws;
mod place;
mod word;

pub use arguments::{
    Given, has_ending, is_file, is_whole, is_zero, may_part, takes_error, takes_file, takes_text,
    takes_value,
};
pub use command::{Base, Command, Setting};
pub use fault::{CqlCause, CqlFault, CqlLimit, Refusal};
pub use laws::{
    each_file_has_one_curve_line, each_file_is_decided, each_spelled_chronology_is_a_model,
    each_spelled_statement_is_within_limits, each_statement_is_decided,
};
pub use place::{barred_at, curve_limit, is_over_at};
pub use word::{command_of, setting_of};
