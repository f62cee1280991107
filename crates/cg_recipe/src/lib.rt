//! The recipe of a marginal, and what holds of it: that its tables enclose the part sums of all nodes and its parts the sums over the
//! datings with an event at a cell, that both lose little, and that the pairs hold. Definitions and laws alone.
#![tactic(auto)]

mod laws;

pub use laws::{
    elements_are_counted, parts_are_bounded, parts_enclose_totals, recipes_are_right,
    tables_are_bounded, tables_enclose_part_sums,
};
