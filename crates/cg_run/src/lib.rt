//! The top call: the words of the command line over a shelf and a sink, to the transcripts of their sessions.
//!
//! Each posterior that a transcript prints is an interval in parts per million that is proved to hold, and each range
//! has at least the part of the posterior that it tells.
#![tactic(auto)]

mod ended;
mod output;
mod top;

pub use ended::Ended;
pub use top::run_alone;
