//! Enclosures of numbers that aren't negative: the arithmetic that every interval rests on.
//!
//! An `Enc` keeps a lower and an upper end in units of a power of two. Zero has all three
//! numbers 0. Otherwise the lower end isn't above the upper one, which has 63 binary digits:
//! `lo ≤ hi` and `2^62 ≤ hi < 2^63`.
//!
//! Lower ends are rounded down and upper ends up, so a result encloses the exact result for all
//! fractions that its operands enclose. Nothing here takes memory.
#![tactic(auto)]

mod enclosure;
mod margin;
mod normal;
mod product;
mod quotient;
mod root;
mod share;
mod sum;

pub use enclosure::Enc;
