//! Contexts in exact whole numbers: the coefficients of an element's table in the total, on the way from the root of a tree down to
//! an event. Definitions and laws alone.
#![tactic(auto)]

mod laws;

pub use laws::{
    calls_give_coefficients, entries_are_held_totals, entries_are_totals, order_does_not_count,
};
