//! Several sessions over one book, which take turns.
//!
//! A list of turns says which session makes the next act; when it is used up, the sessions run to their ends in their
//! order. So the journal and all transcripts are a function of the start models, the scripts, the turns and the curves,
//! but for sessions that want of memory stops.
#![tactic(auto)]

mod run;
mod sessions;

pub use run::{Run, run_in_turns};
