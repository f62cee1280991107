//! What a node of a chronology contributes to the sums over all datings, by the cell where it begins and the one that it
//! reaches, and its table, which has that element by element. Definitions and laws alone.
#![tactic(auto)]

mod laws;

pub use laws::{
    closed_spans_are_spanned, elements_have_the_events, open_events_carry_the_pair,
    part_sum_is_table, pinned_total_is_by_tables, spans_are_exact, total_is_by_tables,
};
