//! Changes, and the texts that they and their models are read from.
mod edits;
mod texts;
