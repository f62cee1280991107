//! The reader of session scripts: the commands that they say, each with its line.
//!
//! A script holds one command a line; blank lines and remarks are skipped. At most 1,000 commands stand in it, and at
//! most 200 of them print. Bytes are one script or have one fault, and the reader tells which: the first line that says
//! no command, and there the first cause that holds, want of memory aside.
#![tactic(auto)]

mod command;
mod fault;
mod field;
mod laws;
mod line;
mod lines;
mod number;
mod quoted;
mod room;
mod script;
mod word;

pub use command::Command;
pub use fault::{ScriptCause, ScriptFault, ScriptLimit};
pub use laws::each_script_is_decided;
pub use script::{Script, read_script};
