//! Changes of a model: a new tree for each, while the old one stays.
#![tactic(auto)]

mod change;
mod copy;
mod edit;
mod fault;
mod law;
mod misplaced;
mod moved;
mod named;
mod parent;

pub use change::apply;
pub use edit::Edit;
pub use fault::{EditFault, Kind};
pub use law::{all_else_stays, changed_models_are_models};
