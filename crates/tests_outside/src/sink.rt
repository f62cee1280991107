//! Sinks: in memory and over streams.

use cg_io::{MemSink, Sink, SinkFault, StreamSink, Written, write_whole};
use std::alloc::Global;
use std::io::Write;
use std::test::Fail;
use std::{fs, io};

// The most bytes of one write, the piece, the answer, the bytes taken so far and the faults.
static IN_MEMORY: [(usize, &str, Result<usize, SinkFault>, &str, u64); 4] = [
    (9, "ab", Ok(2), "ab", 1),
    (1, "cd", Ok(1), "abc", 1),
    (9, "ef", Err(SinkFault), "abc", 2),
    (2, "ghi", Ok(2), "abcgh", 2),
];

#[test]
fn writes_in_memory(rt: HostRuntime) -> Result<(), Fail> {
    let mut sink = MemSink::new(rt.alloc());
    sink.fail_on(4)?;
    assert!(rt; sink.write(b"early") == Err(SinkFault), "no room yet");
    sink.reserve()?;
    for (most, piece, answer, taken, faults) in &IN_MEMORY {
        let piece = piece.as_bytes();
        assert!(rt; *most > 0 && !piece.is_empty());
        sink.at_most(*most);
        assert!(rt; sink.write(piece) == *answer, "before {taken}");
        assert!(rt; sink.bytes() == taken.as_bytes(), "before {taken}");
        assert!(rt; sink.faults() == *faults, "before {taken}");
    }
    Ok(())
}

#[test]
fn fills_its_room(rt: HostRuntime) -> Result<(), Fail> {
    let mut sink = MemSink::new(rt.alloc());
    sink.reserve()?;
    let most = vec![in rt.alloc(); b'x'; 16_777_216]?;
    assert!(rt; sink.write(&most) == Ok(16_777_216));
    sink.reserve()?;
    assert!(rt; sink.write(b"y") == Err(SinkFault), "one past the room");
    assert!(rt; sink.bytes().len() == 16_777_216);
    assert!(rt; sink.faults() == 1);
    Ok(())
}

// The write that fails, how many bytes of four are taken two at a time, whether it failed and the faults.
static TEXTS: [(u64, usize, bool, u64); 3] = [(1, 0, true, 1), (2, 2, true, 1), (3, 4, false, 0)];

fn failing_on(alloc: Global, failing: u64) -> Result<MemSink, Fail> {
    let mut sink = MemSink::new(alloc);
    sink.reserve()?;
    sink.at_most(2);
    sink.fail_on(failing)?;
    Ok(sink)
}

#[test]
fn writes_a_text(rt: HostRuntime) -> Result<(), Fail> {
    for (failing, taken, failed, faults) in &TEXTS {
        let mut sink = failing_on(rt.alloc(), *failing)?;
        let want = Written {
            taken: *taken,
            failed: *failed,
        };
        assert!(rt;
            write_whole(&mut sink, b"text") == want,
            "at write {failing}"
        );
        assert!(rt;
            Some(sink.bytes()) == b"text".get(..*taken),
            "at write {failing}"
        );
        assert!(rt; sink.faults() == *faults, "at write {failing}");
    }
    Ok(())
}

#[test]
fn writes_to_a_stream(rt: HostRuntime) -> Result<(), Fail> {
    let mut bytes: Vec<u8> = Vec::new(rt.alloc());
    {
        let mut sink = StreamSink::new(&mut bytes);
        assert!(rt; sink.write(b"abc") == Ok(3));
        assert!(rt; sink.write(b"d") == Ok(1));
        assert!(rt; sink.faults() == 0);
    }
    assert!(rt; bytes.as_slice() == b"abcd".as_slice());
    Ok(())
}

#[test]
fn writes_to_a_file(rt: HostRuntime) -> Result<(), Fail> {
    let text = vec![in rt.alloc(); b'x'; 70_001]?;
    let want = Written {
        taken: 70_001,
        failed: false,
    };
    let mut sink = StreamSink::new(fs::create(&rt, "written")?);
    assert!(rt; write_whole(&mut sink, &text) == want);
    assert!(rt; sink.faults() == 0);
    let bytes = fs::read(&rt, "written")?;
    assert!(rt; bytes.as_slice() == text.as_slice());
    fs::remove_file(&rt, "written")?;
    Ok(())
}

/// Takes two bytes at its first write, none at its second, and fails from then on.
#[derive(Drop)]
struct Faulty {
    writes: u8,
}

impl Write for Faulty {
    fn write(&mut self, buf: &[u8]) -> io::Result<usize> {
        self.writes = self.writes.saturating_add(1);
        match self.writes {
            1 => Ok(buf.len().min(2)),
            2 => Ok(0),
            _ => Err(io::Error::from(io::ErrorKind::BrokenPipe)),
        }
    }

    fn flush(&mut self) -> io::Result<()> {
        Ok(())
    }
}

static ANSWERS: [(Result<usize, SinkFault>, u64); 3] = [
    (Ok(2), 0),
    (Err(SinkFault), 1),
    (Err(SinkFault), 2),
];

#[test]
fn counts_faults(rt: HostRuntime) {
    let mut sink = StreamSink::new(Faulty { writes: 0 });
    for (answer, faults) in &ANSWERS {
        assert!(rt; sink.write(b"abc") == *answer, "up to {faults} faults");
        assert!(rt; sink.faults() == *faults);
    }
}
