//! Real streams: nothing is told of what they took.

ghost use Rattle.std.specs.Prelude.{◌≡◌};

use crate::sink::{Sink, SinkFault};
use std::io::Write;

/// Writes to a stream. As a sink it tells nothing of what was taken.
///
/// A stream that keeps bytes in a buffer answers for them later: hand in one that doesn't.
#[derive(Drop)]
pub struct StreamSink<W: Write + Drop> {
    stream: W,
    faults: u64,
}

impl<W: Write + Drop> StreamSink<W> {
    /// A sink whose writes have not failed yet. Takes no memory.
    pub fn new(stream: W) -> StreamSink<W>
        ensures { result ≡ record { stream = stream; faults = 0 } }
    {
        StreamSink { stream, faults: 0 }
    }
}

impl<W: Write + Drop> Sink for StreamSink<W> {
    ghost use Rattle.std.specs.Prelude.{◌≡◌, ◌<◌, ◌≤◌, None, length, IfOk, is_ok, if◌then◌else◌};
    ghost use Rattle.std.specs.Io.KnownBytes.{WriteAppends};
    ghost use Rattle.cg_io.specs.Causes.{one_more};

    ghost taken = { λ _. None };

    ghost faults = { λ s. s.faults };

    fn faults(&self) -> u64 {
        self.faults
    }

    fn write(&mut self, piece: &[u8]) -> Result<usize, SinkFault>
        requires { 0 < length piece.now }
        ensures some { IfOk result (λ n. (0 < n) × (n ≤ length piece.now)) }
        ensures later { self.old.faults ≤ self.new.faults }
        ensures counted { self.new.faults ≡
            (if is_ok result then self.old.faults else one_more self.old.faults) }
        // What a stream tells that it holds grew by what was taken.
        ensures stream { WriteAppends (W.contents self.old.stream) (W.contents self.new.stream)
            result piece.now }
    {
        match self.stream.write(piece) {
            Ok(count) if count > 0 => Ok(count),
            _ => {
                self.faults = self.faults.saturating_add(1);
                Err(SinkFault)
            }
        }
    }
}
