//! Tests of models, grids and codes, on models that are read from texts.
#![tactic(auto)]

#[cfg(test)]
mod tests;
