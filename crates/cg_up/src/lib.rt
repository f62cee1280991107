//! The marginal of an event of a model's tree: tables from the events up, and contexts from the root down to the event.
#![tactic(auto)]

mod arrange;
mod arranged;
mod down;
mod element;
mod marginal;
mod pass;
mod preceding;
mod rows;
mod size;
mod tables;

pub use marginal::evaluate;
