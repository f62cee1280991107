//! One file for each crate, and what they share.
mod book;
mod texts;
mod versions;
