//! Tests of the numbers and the joins, from roots to the marginal of an event, by public calls alone.
#![tactic(auto)]

#[cfg(test)]
mod enclosures;
#[cfg(test)]
mod ends;
#[cfg(test)]
mod exponentials;
#[cfg(test)]
mod grids;
#[cfg(test)]
mod likelihoods;
#[cfg(test)]
mod marginals;
#[cfg(test)]
mod models;
#[cfg(test)]
mod roots;
#[cfg(test)]
mod rows;
#[cfg(test)]
mod tables;
