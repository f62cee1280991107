//! What sessions do with their scripts where prints get messages from a cache: courses, and sessions in turns.
//! Definitions, and the laws that every list of turns gives a legal journal and whole courses, that it decides them, and
//! that messages that are ready are taken and each claim is closed.
#![tactic(auto)]

mod laws;

pub use laws::{
    claims_are_closed, each_session_runs_to_its_end, entries_are_of_sessions, prints_are_walked,
    turns_decide,
};
