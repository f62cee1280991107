//! What many sessions mean: edits of a model, versions, the journal, the course of a session, and sessions in turns.
//! Definitions, and the laws that every list of turns gives a legal journal and whole courses, and that it decides them.
#![tactic(auto)]

mod laws;

pub use laws::{each_session_runs_to_its_end, entries_are_of_sessions, turns_decide};
