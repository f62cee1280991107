//! Radiocarbon calibration curves: their files, the curve at a year, and up to four curves by name.
//!
//! A `Curve` has 2 to 20,000 rows, each a year in cal BP with its radiocarbon age and the age's one sigma. Its years
//! fall strictly, by at most 1,000 from row to row. Ages lie within -10,000 to 70,000 and sigmas within 0 to 10,000.
#![tactic(auto)]

mod curve;
mod curves;
mod fault;
mod file;
mod laws;
mod lines;
mod row;

pub use curve::{At, Curve};
pub use curves::Curves;
pub use fault::CurveFault;
pub use file::read_curve;
pub use laws::each_file_is_decided;
