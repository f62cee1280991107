//! The outside world: files to read (a shelf) and bytes to write (a sink).
//!
//! A shelf and a sink count their faults, and an answer that is a fault comes only where that count rose.
#![tactic(auto)]

mod calls;
mod disk;
mod file_shelf;
mod mem_shelf;
mod mem_sink;
mod shelf;
mod sink;
mod stream_sink;

pub use disk::{Disk, Open};
pub use file_shelf::FileShelf;
pub use mem_shelf::MemShelf;
pub use mem_sink::{MemSink, ROOM, SinkNoMemory};
pub use shelf::{ReadEnd, Shelf, ShelfFault};
pub use sink::{Sink, SinkFault, Written, write_whole};
pub use stream_sink::StreamSink;
