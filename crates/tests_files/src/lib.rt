//! Tests of what reads files and words, by public calls alone.
#![tactic(auto)]

#[cfg(test)]
mod faults;
#[cfg(test)]
mod files;
#[cfg(test)]
mod pieces;
#[cfg(test)]
mod shown;
#[cfg(test)]
mod told;
#[cfg(test)]
mod words;
