//! Versions of models, and the heads that models' names stand for.
//!
//! A version is one tree, and its parent, if it has one, is the version that it was changed from. Versions are numbered
//! from 0 and stay as they are. There are fewer than 2^32 of them.
#![tactic(auto)]

mod fault;
mod start;
mod versions;

pub use fault::{CommitFault, TakeFault};
pub use start::StartModels;
pub use versions::Versions;
