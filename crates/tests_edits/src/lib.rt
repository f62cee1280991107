//! Tests of changes, on models and changes that are read from texts.
#![tactic(auto)]

#[cfg(test)]
mod tests;
