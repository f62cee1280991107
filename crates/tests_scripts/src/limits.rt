//! Limits of scripts: 1,000 commands, and 200 of them that print.
use crate::told::told;
use std::alloc::{AllocError, Global};
use std::test::Fail;

/// Two texts, each repeated so often, and what their script comes to.
static REPEATED: [(&str, u32, &str, u32, &str); 22] = [
    ("work\n", 1000, "", 0, "1000 commands\n"),
    (
        "work\n",
        1001,
        "",
        0,
        "session 1 line 1001: limit commands\n",
    ),
    ("work\n", 1000, "x\n", 1, "session 1 line 1001: unknown x\n"),
    ("# a\n\n", 1001, "work", 1, "1 commands\n"),
    (
        "undo\n",
        999,
        "grid 60001 1",
        1,
        "session 1 line 1000: limit years\n",
    ),
    (
        "undo\n",
        1000,
        "grid 60001 1",
        1,
        "session 1 line 1001: limit commands\n",
    ),
    ("print \"A\"\n", 200, "", 0, "200 commands\n"),
    (
        "print \"A\"\n",
        201,
        "",
        0,
        "session 1 line 201: limit prints\n",
    ),
    (
        "ranges \"A\"\n",
        200,
        "print\n",
        1,
        "session 1 line 201: limit prints\n",
    ),
    (
        "ranges \"A\"\n",
        200,
        "ranges \"A\"\n",
        1,
        "session 1 line 201: limit prints\n",
    ),
    (
        "print \"A\"\nranges \"A\"\n",
        100,
        "undo\n",
        800,
        "1000 commands\n",
    ),
    (
        "print \"A\"\nranges \"A\"\n",
        100,
        "print \"A\"\n",
        1,
        "session 1 line 201: limit prints\n",
    ),
    (
        "print \"A\"\nwork\n",
        200,
        "set \"A\" x",
        1,
        "session 1 line 401: statement: command x\n",
    ),
    (
        "ranges \"A\"\nmodel\n",
        100,
        "ranges\n",
        1,
        "session 1 line 201: syntax\n",
    ),
    // The statement of a command ends too soon, or passes a limit before.
    (
        "add \"s\" Phase(){",
        1,
        "Date();",
        100,
        "session 1 line 1: statement: syntax\n",
    ),
    (
        "add \"s\" Phase(){",
        1,
        "Date();",
        101,
        "session 1 line 1: statement: limit events\n",
    ),
    (
        "add \"s\" Phase(){",
        1,
        "After(){};",
        59,
        "session 1 line 1: statement: syntax\n",
    ),
    (
        "add \"s\" Phase(){",
        1,
        "After(){};",
        60,
        "session 1 line 1: statement: limit groups\n",
    ),
    (
        "insert \"s\" ",
        1,
        "Phase(){",
        16,
        "session 1 line 1: statement: syntax\n",
    ),
    (
        "insert \"s\" ",
        1,
        "Phase(){",
        17,
        "session 1 line 1: statement: limit depth\n",
    ),
    // A command takes one statement.
    (
        "add \"s\" Date();",
        1,
        "Date();",
        1,
        "session 1 line 1: statement: syntax\n",
    ),
    ("add \"s\" ", 1, "Date();\n", 1, "1 commands\n"),
];

// the first text so often, and the second behind it
fn repeated(alloc: Global, first: (&str, u32), second: (&str, u32)) -> Result<String, AllocError> {
    let mut text = String::new(alloc);
    for _ in 0..first.1 {
        text.push_str(first.0)?;
    }
    for _ in 0..second.1 {
        text.push_str(second.0)?;
    }
    Ok(text)
}

#[test]
fn limits(rt: HostRuntime) -> Result<(), Fail> {
    for (first, times, second, others, want) in &REPEATED {
        let text = repeated(rt.alloc(), (first, *times), (second, *others))?;
        let told = told(rt.alloc(), text.as_bytes())?;
        assert_eq!(rt; told.as_str(), *want, "{times} times {first:?}");
    }
    Ok(())
}
