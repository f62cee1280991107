//! A session: it does its script command by command over a book, and writes its transcript.
//!
//! The one who calls `advance` again and again walks the session through its course. It keeps room for its last line,
//! so it can always end.
#![tactic(auto)]

mod cover;
mod port;
mod search;
mod session;
mod standing;
mod transcript;

pub use port::{BookPort, Port};
pub use session::{Progress, Session};
