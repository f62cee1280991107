//! Years and decimal numbers, each with its exact text, and the one answer to want of memory.
//!
//! A `Year` is its cal BP number, from -1,000 to 60,000: 0 cal BP is AD 1950, and 1950 cal BP is 1 BC.
#![tactic(auto)]

mod decimal;
mod label;
mod no_memory;
mod reading;
mod writing;
mod year;

pub use decimal::{Decimal, NumFault};
pub use label::{labels_name_their_years, write_label};
pub use no_memory::NoMemory;
pub use reading::{numerals_have_one_form, read_decimal};
pub use writing::{what_is_written_is_read, what_is_written_is_shortest, write_decimal};
pub use year::Year;
