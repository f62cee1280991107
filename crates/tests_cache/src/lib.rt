//! Tests of the three lists of slots and of the cache, by public calls.
#![tactic(auto)]

#[cfg(test)]
mod tests;
