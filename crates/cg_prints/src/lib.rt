//! What holds of each marginal that a session prints, whatever the scripts and the turns are. A law alone.
#![tactic(auto)]

mod laws;

pub use laws::prints_are_founded;
