//! What a chronology means: its datings, their weights, and the posterior of an event. Definitions alone.
#![tactic(auto)]
