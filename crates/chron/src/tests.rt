use crate::edge::{behind_the_name, report};
use cg_io::MemSink;
use cg_report::Status;
use std::test::Fail;

#[test]
fn words(rt: HostRuntime) -> Result<(), Fail> {
    let mut words = Vec::new(rt.alloc());
    for word in ["chron", "alone", "--models"] {
        words.push(String::from_str(rt.alloc(), word)?)?;
    }
    let behind = behind_the_name(words);
    assert!(rt; behind.len() == 2 && behind[0].as_str() == "alone");
    assert!(rt; behind_the_name(Vec::new(rt.alloc())).is_empty());
    Ok(())
}

#[test]
fn reports(rt: HostRuntime) -> Result<(), Fail> {
    for (status, line) in [(Status::Done, ""), (Status::Usage, "usage\n")] {
        let mut sink = MemSink::new(rt.alloc());
        sink.reserve()?;
        let written = report(rt.alloc(), &mut sink, &status);
        assert!(rt; !written.failed && sink.bytes() == line.as_bytes());
    }
    Ok(())
}
