//! A sink in memory.

ghost use Rattle.std.specs.Prelude.{◌≡◌, ◌-◌, ◌<◌, ◌≤◌, length, OnOk, OnErr};

use crate::calls::Calls;
use crate::sink::{Sink, SinkFault};
use std::alloc::{AllocError, Global};
use std::marker::Model;

/// How many bytes a sink in memory holds once it has its room: 16 MiB.
pub const ROOM: usize = 16 * 1024 * 1024;

/// There was no memory for a sink.
#[derive(Clone, Copy, Debug, PartialEq, Eq)]
pub struct SinkNoMemory;

impl From<AllocError> for SinkNoMemory {
    fn from(_error: AllocError) -> SinkNoMemory {
        SinkNoMemory
    }
}

/// Output in memory, which tells it. Writes are counted from 1, and some may be told to fail.
///
/// A write is for its piece, cut to the most bytes of one write. All of that is taken, unless the
/// room left is less or the write is one that is to fail.
#[derive(Drop)]
pub struct MemSink {
    bytes: Vec<u8>,
    calls: Calls,
    most: usize,
    room: usize,
    faults: u64,
}

impl Model for MemSink {
    ghost use Rattle.std.specs.Prelude.{vec_len, vec_capacity};
    ghost use Rattle.cg_io.specs.MemSink.{SinkState, IsHeld};
    ghost use Rattle.cg_io.specs.declared.mem_sink.TheConstants.{ROOM};

    ghost Value = { SinkState };

    ghost view = { λ s. record { taken = s.bytes.items; calls = s.calls; most = s.most; room = s.room; faults = s.faults } };

    ghost invariant = { λ s. IsHeld ROOM (vec_len s.bytes) s.room s.most (vec_capacity s.bytes) };
}

impl MemSink {
    ghost use Rattle.cg_io.specs.MemSink.{empty_sink};
    ghost use Rattle.cg_io.specs.Calls.{with_failing};

    /// A sink with no room yet.
    pub fn new(alloc: Global) -> MemSink
        ensures { result ≡ empty_sink }
    {
        MemSink {
            bytes: Vec::new(alloc),
            calls: Calls::new(alloc),
            most: usize::MAX,
            room: 0,
            faults: 0,
        }
    }

    /// Gives the sink its room, `ROOM` bytes with those that it has taken.
    pub fn reserve(&mut self) -> Result<(), SinkNoMemory>
        ensures ok { OnOk result (self.new ≡ record self.old { room = ROOM - length self.old.taken }) }
        ensures err { OnErr result (self.new ≡ self.old) }
    {
        let room = ROOM - self.bytes.len();
        self.bytes.reserve(room)?;
        self.room = room;
        Ok(())
    }

    /// The write of this number is to fail.
    pub fn fail_on(&mut self, call: u64) -> Result<(), SinkNoMemory>
        ensures ok { OnOk result (self.new ≡
            record self.old { calls = with_failing self.old.calls call }) }
        ensures err { OnErr result (self.new ≡ self.old) }
    {
        self.calls.fail_on(call)?;
        Ok(())
    }

    /// A write is to take at most so many bytes.
    pub fn at_most(&mut self, bytes: usize)
        requires { 0 < bytes }
        ensures { self.new ≡ record self.old { most = bytes } }
    {
        self.most = bytes;
    }

    /// The bytes taken.
    pub fn bytes(&self) -> &[u8]
        ensures { result.now ≡ self.now.taken }
    {
        self.bytes.as_slice()
    }
}

impl Sink for MemSink {
    ghost use Rattle.std.specs.Prelude.{◌≡◌, ◌<◌, ◌≤◌, Some, length, IfOk, is_ok, if◌then◌else◌};
    ghost use Rattle.cg_io.specs.Causes.{one_more};
    ghost use Rattle.cg_io.specs.MemSink.{Writes};

    ghost taken = { λ s. Some s.taken };

    ghost faults = { λ s. s.faults };

    fn faults(&self) -> u64 {
        self.faults
    }

    fn write(&mut self, piece: &[u8]) -> Result<usize, SinkFault>
        requires { 0 < length piece.now }
        ensures some { IfOk result (λ n. (0 < n) × (n ≤ length piece.now)) }
        ensures later { self.old.faults ≤ self.new.faults }
        ensures counted { self.new.faults ≡
            (if is_ok result then self.old.faults else one_more self.old.faults) }
        ensures exact { Writes self.old self.new piece.now result }
    {
        let fails = self.calls.count();
        let count = piece.len().min(self.most);
        if fails || count > self.room {
            self.faults = self.faults.saturating_add(1);
            return Err(SinkFault);
        }
        self.bytes.extend_from_slice(&piece[..count]).unwrap();
        self.room -= count;
        Ok(count)
    }
}
