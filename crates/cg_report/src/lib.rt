//! Every text that the program writes: the lines of transcripts, and those of statuses.
//!
//! A call that takes memory appends its whole text or leaves `out` as it was. The others write where there is room.
#![tactic(auto)]

mod cause;
mod fault;
mod file;
mod line;
mod marginal;
mod model;
mod range;
mod room;
mod status;

pub use cause::SessionCause;
pub use file::{FileCause, FileKind, FileRef};
pub use line::{grid_line, line_of, work_line};
pub use marginal::{marginal_lines, pairs};
pub use model::{fingerprint, model_lines};
pub use range::{range_lines, ranges_lines};
pub use room::{write_last, write_number, write_refusal};
pub use status::{Status, status_line};
