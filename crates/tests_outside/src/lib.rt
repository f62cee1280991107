//! Tests of shelf and sink, of numbers and of curves, by their public calls alone.
#![tactic(auto)]

#[cfg(test)]
mod curve;
#[cfg(test)]
mod numbers;
#[cfg(test)]
mod shelf;
#[cfg(test)]
mod sink;
