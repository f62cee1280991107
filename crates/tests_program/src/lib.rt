//! Tests of the top call: worked cases, refusals, sessions in turns, and faults of the outside.
#![tactic(auto)]

#[cfg(test)]
mod tests;
