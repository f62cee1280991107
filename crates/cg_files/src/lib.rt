//! The files of a run: curves first, then models, then session scripts, each read once.
//!
//! The first file whose read fails or that is not accepted ends the reading, and no later file is read.
#![tactic(auto)]

mod file;
mod inputs;
mod laws;
mod lists;
mod read;

pub use file::FileFault;
pub use inputs::{Inputs, read_all};
pub use laws::files_have_one_end;
