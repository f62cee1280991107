//! Tests of the generator of large inputs, by public calls alone.
#![tactic(auto)]

#[cfg(test)]
mod texts;
