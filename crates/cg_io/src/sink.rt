//! Where bytes are written to.

ghost use Rattle.std.specs.Prelude.{◌≡◌, ◌≤◌, ◌<◌, ◌↔◌, ℕ, Option, List, length, take, IfOk, OnErr, IsTrue, is_ok, if◌then◌else◌};
ghost use Rattle.cg_io.specs.Causes.{one_more, Rose};
ghost use Rattle.cg_io.specs.Sink.{Takes};

/// A sink could not take any byte of a piece.
#[derive(Clone, Copy, Debug, PartialEq, Eq)]
pub struct SinkFault;

/// What takes bytes.
pub trait Sink {
    /// The bytes taken so far, where the sink tells them.
    ghost taken: { Self → Option (List ℕ) };

    /// How many writes have failed. The count stays at the end of `u64`.
    ghost faults: { Self → ℕ };

    /// How many writes have failed.
    fn faults(&self) -> u64
        ensures { result ≡ faults self.now };

    /// Takes bytes from the front of a piece, at least one, and returns how many.
    ///
    /// At a fault nothing was taken, and the count of faults rose by this one. Else it is as it was.
    fn write(&mut self, piece: &[u8]) -> Result<usize, SinkFault>
        requires { 0 < length piece.now }
        ensures some { IfOk result (λ n. (0 < n) × (n ≤ length piece.now)) }
        ensures taken { IfOk result (λ n. Takes (taken self.old) (taken self.new) (take n piece.now)) }
        ensures err { OnErr result (taken self.new ≡ taken self.old) }
        ensures later { faults self.old ≤ faults self.new }
        ensures counted { faults self.new ≡
            (if is_ok result then faults self.old else one_more (faults self.old)) };
}

/// How many bytes of a text were taken, and whether a write failed before the rest.
#[derive(Clone, Copy, Debug, PartialEq, Eq)]
pub struct Written {
    pub taken: usize,
    pub failed: bool,
}

/// Writes a text from its front until all of it is taken or a write fails. Takes no memory.
pub fn write_whole<K: Sink>(sink: &mut K, text: &[u8]) -> Written
    ensures within { result.taken ≤ length text.now }
    ensures failed { IsTrue result.failed ↔ (result.taken < length text.now) }
    ensures taken { Takes (K.taken sink.old) (K.taken sink.new) (take result.taken text.now) }
    ensures later { K.faults sink.old ≤ K.faults sink.new }
    ensures cause { IsTrue result.failed → Rose (K.faults sink.old) (K.faults sink.new) }
    // No write failed where all of the text was taken, and else one.
    ensures counted { K.faults sink.new ≡
        (if result.failed then one_more (K.faults sink.old) else K.faults sink.old) }
{
    let mut taken = 0;
    while taken < text.len() {
        match sink.write(&text[taken..]) {
            Ok(more) => taken += more,
            Err(SinkFault) => {
                return Written {
                    taken,
                    failed: true,
                };
            }
        }
    }
    Written {
        taken,
        failed: false,
    }
}
