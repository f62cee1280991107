use super::{TWO_EVENTS, WORDS, line_of, open_sink, run_over, run_words, shelf_of};
use cg_io::{MemShelf, MemSink, Shelf};
use std::test::Fail;

const FILES: [(&str, &str); 2] = [("m", TWO_EVENTS), ("s", "open main\n")];

const OUTPUT: &[u8] = b"session 1\nat v0\nend 1\n";

/// The files with a curve, on a shelf whose read of this number fails.
fn failing_shelf(rt: &HostRuntime, call: u64) -> Result<MemShelf, Fail> {
    let mut shelf = shelf_of(rt, FILES.as_slice())?;
    shelf.put("c", b"2002,2000,20\n2000,2000,20\n")?;
    shelf.fail_on(call)?;
    Ok(shelf)
}

/// The read that fails, and the status: curves are read first, then models, then session scripts.
#[test]
fn failing_reads(rt: HostRuntime) -> Result<(), Fail> {
    let texts = [
        "alone",
        "--sessions",
        "s,s",
        "--models",
        "main=m,side=m",
        "--curves",
        "C.14c=c",
    ];
    let cases = [
        (1, "read fault: curve 1\n"),
        (2, "read fault: model 1\n"),
        (3, "read fault: model 2\n"),
        (4, "read fault: session 1\n"),
        (5, "read fault: session 2\n"),
        (6, ""),
    ];
    for (call, want) in cases {
        let mut shelf = failing_shelf(&rt, call)?;
        let mut sink = open_sink(&rt)?;
        let ended = run_over(&rt, texts.as_slice(), &mut shelf, &mut sink)?;
        assert_eq!(rt;
            line_of(rt.alloc(), &ended.status)?.as_str(),
            want,
            "call {call}"
        );
        assert_eq!(rt; ended.taken, sink.bytes().len() as u64, "call {call}");
    }
    Ok(())
}

/// The line that tells of a run over a shelf.
fn told_over(rt: &HostRuntime, shelf: &mut MemShelf, sink: &mut MemSink) -> Result<String, Fail> {
    let ended = run_over(rt, WORDS.as_slice(), shelf, sink)?;
    line_of(rt.alloc(), &ended.status)
}

/// The files, on a shelf of which a read has failed.
fn failed_shelf(rt: &HostRuntime) -> Result<MemShelf, Fail> {
    let mut shelf = shelf_of(rt, FILES.as_slice())?;
    let mut bytes = Vec::new(rt.alloc());
    match shelf.read("nothing", &mut bytes, 9) {
        Ok(_) => Err("a file of no name".into()),
        Err(_) => Ok(shelf),
    }
}

/// A fault of an earlier call is none of this run.
#[test]
fn faults_of_other_calls(rt: HostRuntime) -> Result<(), Fail> {
    let mut shelf = failed_shelf(&rt)?;
    let mut sink = open_sink(&rt)?;
    let told = told_over(&rt, &mut shelf, &mut sink)?;
    assert_eq!(rt; told.as_str(), "");
    assert_eq!(rt; sink.bytes(), OUTPUT);
    Ok(())
}

/// A file that isn't there.
#[test]
fn missing_file(rt: HostRuntime) -> Result<(), Fail> {
    let mut bare = MemShelf::new(rt.alloc());
    let mut sink = open_sink(&rt)?;
    let told = told_over(&rt, &mut bare, &mut sink)?;
    assert_eq!(rt; told.as_str(), "read fault: model 1\n");
    Ok(())
}

/// The write that fails of a sink that takes ten bytes at most, and how many bytes it took.
#[test]
fn failing_writes(rt: HostRuntime) -> Result<(), Fail> {
    for (call, taken) in [(1, 0), (2, 10), (3, 20)] {
        let mut sink = open_sink(&rt)?;
        sink.at_most(10);
        sink.fail_on(call)?;
        let ended = run_words(&rt, WORDS.as_slice(), FILES.as_slice(), &mut sink)?;
        assert_eq!(rt; ended.status.code(), 5, "call {call}");
        assert_eq!(rt; ended.taken, taken, "call {call}");
        assert_eq!(rt; sink.bytes().len() as u64, taken, "call {call}");
        assert_eq!(rt; ended.journal.entries().len(), 1, "call {call}");
    }
    Ok(())
}

/// A sink without room takes nothing.
#[test]
fn no_room(rt: HostRuntime) -> Result<(), Fail> {
    let mut sink = MemSink::new(rt.alloc());
    let ended = run_words(&rt, WORDS.as_slice(), FILES.as_slice(), &mut sink)?;
    assert_eq!(rt; ended.status.code(), 5);
    assert_eq!(rt; ended.taken, 0);
    Ok(())
}
