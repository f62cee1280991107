//! Words that ask for nothing, and files that are refused.
use super::{TWO_EVENTS, WORDS, line_of, open_sink, outcome_of, run_over};
use cg_io::MemShelf;
use std::alloc::Global;
use std::fmt::Write;
use std::test::Fail;

const OPEN: &str = "open main\n";

const USAGE: &str = "usage\n";

/// Words that ask for nothing, and words that ask for something.
static WORD_LISTS: [(&[&str], &str); 10] = [
    (&["alone", "--sessions", "s", "--models", "main=m"], ""),
    (
        &[
            "alone",
            "--turns",
            "2,1,0002",
            "--models",
            "a=m,b=m,A=m",
            "--cache",
            "256",
            "--sessions",
            "s,s",
        ],
        "",
    ),
    (&[], USAGE),
    (&["alone", "--models", "main=m"], USAGE),
    (&["run", "--models", "main=m", "--sessions", "s"], USAGE),
    (&["alone", "--models", "a=m,a=m", "--sessions", "s"], USAGE),
    (
        &[
            "alone",
            "--curves",
            "a=c,A=c",
            "--models",
            "main=m",
            "--sessions",
            "s",
        ],
        USAGE,
    ),
    (
        &[
            "alone",
            "--models",
            "main=m",
            "--sessions",
            "s",
            "--turns",
            "2",
        ],
        USAGE,
    ),
    (
        &[
            "alone",
            "--models",
            "main=m",
            "--sessions",
            "s",
            "--cache",
            "257",
        ],
        USAGE,
    ),
    (
        &[
            "alone",
            "--models",
            "main=m",
            "--sessions",
            "s",
            "--cache",
            "-1",
        ],
        USAGE,
    ),
];

#[test]
fn words(rt: HostRuntime) -> Result<(), Fail> {
    let files = [("m", TWO_EVENTS), ("s", OPEN)];
    for (texts, want) in &WORD_LISTS {
        let outcome = outcome_of(&rt, texts, files.as_slice())?;
        assert_eq!(rt; outcome.told.as_str(), *want, "{texts:?}");
    }
    Ok(())
}

/// Curve files, and the line of the status.
static CURVES: [(&str, &str); 6] = [
    ("2002,2000,20\n2000,2000,20\n", ""),
    (
        "# years\n2002,2000,20\n2000,x,20\n",
        "curve 2 line 3: bad row\n",
    ),
    (
        "2002,70001,20\n2000,2000,20\n",
        "curve 2 line 1: out of range\n",
    ),
    ("2000,2000,20\n2000,2000,20\n", "curve 2 line 2: order\n"),
    ("3001,2000,20\n2000,2000,20\n", "curve 2 line 2: gap\n"),
    ("2000,2000,20\n", "curve 2 line 0: too few\n"),
];

#[test]
fn curve_files(rt: HostRuntime) -> Result<(), Fail> {
    let words = [
        "alone",
        "--curves",
        "a=b,c=c",
        "--models",
        "main=m",
        "--sessions",
        "s",
    ];
    for (text, want) in &CURVES {
        let files = [
            ("b", "2002,2000,20\n2000,2000,20\n"),
            ("c", *text),
            ("m", TWO_EVENTS),
            ("s", OPEN),
        ];
        let outcome = outcome_of(&rt, words.as_slice(), files.as_slice())?;
        assert_eq!(rt; outcome.told.as_str(), *want, "{text}");
        assert_eq!(rt; outcome.output.is_empty(), !want.is_empty(), "{text}");
    }
    Ok(())
}

/// A model and a script, and the line of the status.
static REFUSED: [(&str, &str, &str); 17] = [
    ("Options(){Cubic=FALSE;};Date(\"A\");", "", ""),
    ("", OPEN, ""),
    (
        "Options(){Cubic=TRUE;};",
        "x",
        "model 1 line 1: option Cubic\n",
    ),
    (
        "Sequence(\"s\"){\nTau_Boundary(\"x\");\n};",
        OPEN,
        "model 1 line 2: command Tau_Boundary\n",
    ),
    (
        "Sequence(\"s\"){Date(\"A\");",
        OPEN,
        "model 1 line 1: syntax\n",
    ),
    ("C_Date(0);", OPEN, "model 1 line 1: argument\n"),
    ("C_Date(2951);", OPEN, "model 1 line 1: argument\n"),
    ("\n/* \n", OPEN, "model 1 line 2: token\n"),
    ("Phase(){\n\nBoundary();};", OPEN, "model 1 line 3: place\n"),
    (
        "Curve(\"X\");Date(\"A\");",
        OPEN,
        "model 1 line 1: unknown curve\n",
    ),
    (
        "Curve(\"X\",\n\"Y\");Date(\"A\");",
        OPEN,
        "model 1 line 2: unknown curve\n",
    ),
    (
        "Curve(\"X\",\n\"Y\");\nCurve(\"Y\");",
        OPEN,
        "model 1 line 3: limit curves\n",
    ),
    (
        TWO_EVENTS,
        "open main\nnothing\n",
        "session 1 line 2: unknown nothing\n",
    ),
    (
        TWO_EVENTS,
        "grid 60001 60000\n",
        "session 1 line 1: limit years\n",
    ),
    (TWO_EVENTS, "# a\n\nundo undo", "session 1 line 3: syntax\n"),
    (
        TWO_EVENTS,
        "add \"s\" Boundary(\"e\")",
        "session 1 line 1: statement: syntax\n",
    ),
    (
        TWO_EVENTS,
        "set \"A\" Tau_Boundary();",
        "session 1 line 1: statement: command Tau_Boundary\n",
    ),
];

#[test]
fn refused_files(rt: HostRuntime) -> Result<(), Fail> {
    for (model, script, want) in &REFUSED {
        let files = [("m", *model), ("s", *script)];
        let outcome = outcome_of(&rt, WORDS.as_slice(), files.as_slice())?;
        assert_eq!(rt; outcome.told.as_str(), *want, "{model} {script}");
        assert_eq!(rt;
            outcome.output.is_empty(),
            !want.is_empty(),
            "{model} {script}"
        );
    }
    Ok(())
}

// the line of the status where the script is of so many line feeds
fn told_of(rt: &HostRuntime, length: usize) -> Result<String, Fail> {
    let long = vec![in rt.alloc(); b'\n'; length]?;
    let mut shelf = MemShelf::new(rt.alloc());
    shelf.put("m", TWO_EVENTS.as_bytes())?;
    shelf.put("s", &long)?;
    let mut sink = open_sink(rt)?;
    let ended = run_over(rt, WORDS.as_slice(), &mut shelf, &mut sink)?;
    line_of(rt.alloc(), &ended.status)
}

/// A file at the limit is read, and one that is a byte longer isn't.
#[test]
fn long_files(rt: HostRuntime) -> Result<(), Fail> {
    assert_eq!(rt; told_of(&rt, 4_194_304)?.as_str(), "");
    assert_eq!(rt;
        told_of(&rt, 4_194_305)?.as_str(),
        "session 1 line 0: too long\n"
    );
    Ok(())
}

/// So many dates in a Sequence, with the names A0, A1 and so on.
fn dates(alloc: Global, count: usize) -> Result<String, Fail> {
    let mut model = String::from_str(alloc, "Sequence(\"s\"){")?;
    for member in 0..count {
        write!(model, "Date(\"A{member}\");")?;
    }
    model.push_str("};")?;
    Ok(model)
}

/// A hundred events, and one more; a model of a hundred and one isn't accepted.
#[test]
fn events(rt: HostRuntime) -> Result<(), Fail> {
    let script = "open main\nadd \"s\" Date(\"B\");\n";
    let full = dates(rt.alloc(), 100)?;
    let files = [("m", full.as_str()), ("s", script)];
    let full_outcome = outcome_of(&rt, WORDS.as_slice(), files.as_slice())?;
    assert_eq!(rt;
        full_outcome.output.as_slice(),
        b"session 1\nat v0\nrefused 2 limit events\nend 1\n".as_slice()
    );
    let past = dates(rt.alloc(), 101)?;
    let files = [("m", past.as_str()), ("s", script)];
    let past_outcome = outcome_of(&rt, WORDS.as_slice(), files.as_slice())?;
    assert_eq!(rt;
        past_outcome.told.as_str(),
        "model 1 line 1: limit events\n"
    );
    Ok(())
}
