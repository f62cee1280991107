//! What the words of chron's command line ask for.
//!
//! The words are the command `alone` and options behind it, in any order, each at most once. Each option is followed by
//! a list, whose parts have commas between them, and `--cache` by one number:
//!
//! - `--curves`, which may be left out: 1 to 4 parts NAME=FILE, no two NAMEs equal, ASCII case aside;
//! - `--models`: 1 to 8 parts NAME=FILE, no two NAMEs equal;
//! - `--sessions`: 1 to 8 FILEs;
//! - `--turns`, which may be left out: 1 to 10,000 numbers of sessions, each of 1 to 7 digits;
//! - `--cache`, which may be left out, and is then 64: how many results the cache of the sessions may keep, 0 to 256,
//!   of 1 to 7 digits.
//!
//! A NAME has 1 to 64 ASCII letters, digits, `_`, `-` or `.`, and a FILE 1 to 240 bytes.
#![tactic(auto)]

mod cache;
mod distinct;
mod laws;
mod lists;
mod named;
mod numeral;
mod parts;
mod request;
mod turn;
mod words;

pub use laws::words_ask_for_one_thing;
pub use named::NamedFile;
pub use request::Request;
pub use words::request_of;
