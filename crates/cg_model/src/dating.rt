use cg_num::{Decimal, Year};

/// What is known of an event by itself. An error is one sigma.
#[derive(Clone, Copy, Debug, PartialEq, Eq)]
pub enum Dating {
    /// Nothing.
    Free,
    /// Its exact year.
    Exact(Year),
    /// A year with a normal error, in years.
    Normal(Year, Decimal),
    /// A radiocarbon age with its error, both in years.
    Carbon(Decimal, Decimal),
}
