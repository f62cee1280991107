//! Payloads by their codes, at most so many, and the codes that seats have claimed so as to make their payloads.
//!
//! Each slot of the rings holds a ready payload, a claim, or nothing. A payload that was used goes to the front of the
//! ready ones, and the last of them makes room for a claim.
#![tactic(auto)]

mod cache;
mod entry;
mod moves;
mod payload;
mod ticket;

pub use cache::Cache;
pub use payload::Payload;
pub use ticket::{Claimed, Ticket};
