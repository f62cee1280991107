//! Large inputs by a number: a curve, a model and four scripts. The same number gives the same bytes.
//!
//! Each draw takes the number on, and the draws are made in the order of the texts: 202 for the curve, 40 for the model
//! and 3 for each script.
#![tactic(auto)]

mod curve;
mod draws;
mod inputs;
mod model;
mod pieces;
mod script;

pub use inputs::{Inputs, generate};
