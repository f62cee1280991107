//! Commands that are refused.
use super::{Outcome, TWO_EVENTS, WORDS, outcome_of};
use std::test::Fail;

/// A model, a script, and the lines between the first and the last.
static COMMANDS: [(&str, &str, &str); 11] = [
    // A command that needs a version, before all else.
    (
        TWO_EVENTS,
        "undo\nset \"Z\" Date();\nadd \"Z\" Date(\"C\");\ncommit other\nprint \"Z\"\n",
        "refused 1 not open\nrefused 2 not open\nrefused 3 not open\nrefused 4 not open\nrefused 5 not open\n",
    ),
    // A print without a grid, before its name is looked for; a refused grid leaves none.
    (
        TWO_EVENTS,
        "open main\nprint \"Z\"\ngrid 2512 2000\ngrid 2000 2001\nprint \"A\"\n",
        "at v0\nrefused 2 no grid\nrefused 3 grid limit 513\nrefused 4 grid limit 0\nrefused 5 no grid\n",
    ),
    // Names of events: none, a group's, and a name twice.
    (
        "Phase(\"p\"){Date(\"A\");Date(\"A\");};",
        "open main\ngrid 2001 2000\nprint \"A\"\nprint \"Z\"\nprint \"p\"\n",
        "at v0\ngrid 2001 2000\nrefused 3 ambiguous 2\nrefused 4 no name\nrefused 5 wrong kind Phase\n",
    ),
    // Names of what is changed.
    (
        "Phase(\"p\"){Date(\"A\");Date(\"A\");};",
        "open main\nset \"A\" Date();\nset \"p\" Date();\nset \"Z\" Date();\nadd \"A\" Date(\"B\");\nadd \"Z\" Date(\"B\");\n",
        "at v0\nrefused 2 ambiguous 2\nrefused 3 wrong kind Phase\nrefused 4 no name\nrefused 5 ambiguous 2\nrefused 6 no name\n",
    ),
    (
        TWO_EVENTS,
        "open main\nadd \"A\" Date(\"B\");\n",
        "at v0\nrefused 2 wrong kind Leaf\n",
    ),
    // Models and versions.
    (
        TWO_EVENTS,
        "open other\ntake v1\ntake v0\nundo\ncommit other\n",
        "refused 1 no model\nrefused 2 no version 1\nat v0\nrefused 4 no parent\nrefused 5 no model\n",
    ),
    // A commit by a name that was never opened has no base.
    (
        TWO_EVENTS,
        "take v0\ncommit main\nopen main\nadd \"s\" Date(\"C\");\ncommit main\ntake v0\ncommit main\n",
        "at v0\nrefused 2 moved v0\nat v0\nmade v1\ncommitted v1\nat v0\ncommitted v0\n",
    ),
    // In the order of refusals; what is refused leaves all as it was.
    (
        TWO_EVENTS,
        "print \"A\"\nopen main\nprint \"Z\"\ngrid 2512 2000\nopen other\ngrid 2000 2000\nprint \"Z\"\nprint \"s\"\n",
        "refused 1 not open\nat v0\nrefused 3 no grid\nrefused 4 grid limit 513\nrefused 5 no model\ngrid 2000 2000\nrefused 7 no name\nrefused 8 wrong kind Sequence\n",
    ),
    // A head may go back to an older version.
    (
        TWO_EVENTS,
        "open main\nadd \"s\" Date(\"C\");\ncommit main\nundo\ncommit main\nundo\ntake v7\nset \"A\" C_Date(-60);\n",
        "at v0\nmade v1\ncommitted v1\nat v0\ncommitted v0\nrefused 6 no parent\nrefused 7 no version 2\nmade v2\n",
    ),
    // No curve was given.
    (
        "R_Date(\"R\",2000,30);",
        "open main\ngrid 2001 2000\nprint \"R\"\n",
        "at v0\ngrid 2001 2000\nrefused 3 no curve\n",
    ),
    // Too far from a year of the grid, the oldest one first.
    (
        "Phase(){R_Date(\"R\",2000,30);C_Date(\"C\",-30000,5);};",
        "open main\ngrid 2001 2000\nset \"R\" Date();\nprint \"R\"\n",
        "at v0\ngrid 2001 2000\nmade v1\nrefused 4 far date 2001\n",
    ),
];

// what a session of this script writes, between its first line and its last
fn is_between(rt: &HostRuntime, outcome: &Outcome, lines: &str) -> Result<bool, Fail> {
    let want = format!(in rt.alloc(); "session 1\n{lines}end 1\n")?;
    Ok(outcome.told.is_empty() && outcome.output.as_slice() == want.as_bytes())
}

#[test]
fn commands(rt: HostRuntime) -> Result<(), Fail> {
    for (model, script, lines) in &COMMANDS {
        let files = [("m", *model), ("s", *script)];
        let outcome = outcome_of(&rt, WORDS.as_slice(), files.as_slice())?;
        assert!(rt; is_between(&rt, &outcome, lines)?, "{script}");
    }
    Ok(())
}

/// Whether a curve is given, a model, the older year of a grid, and the cause: the first event and its oldest year at
/// fault, after the name.
static UNWEIGHED: [(bool, &str, u32, &str); 5] = [
    (false, "R_Date(\"R\",2000,1);", 2001, "no curve"),
    (true, "R_Date(\"R\",17000,1);", 2003, "uncovered 2003"),
    (true, "R_Date(\"R\",18385,1);", 2001, "far date 2001"),
    (
        false,
        "Phase(){C_Date(\"R\",-18051,1);Sequence(){Boundary(\"b\");R_Date(\"Q\",2000,1);};};",
        2001,
        "far date 2001",
    ),
    (
        false,
        "Phase(){Sequence(){Boundary(\"b\");R_Date(\"Q\",2000,1);};C_Date(\"R\",-18051,1);};",
        2001,
        "no curve",
    ),
];

const WITH_CURVE: [&str; 7] = [
    "alone",
    "--models",
    "main=m",
    "--sessions",
    "s",
    "--curves",
    "c=c",
];

// what comes of a model and a script, with the curve or without it
fn outcome_with<'a>(
    rt: &HostRuntime,
    is_given: bool,
    model: &'a str,
    script: &'a str,
) -> Result<Outcome, Fail> {
    let files = [
        ("c", "2002,2000,20\n2000,2000,20\n"),
        ("m", model),
        ("s", script),
    ];
    if is_given {
        outcome_of(rt, WITH_CURVE.as_slice(), files.as_slice())
    } else {
        outcome_of(rt, WORDS.as_slice(), files.as_slice())
    }
}

// whether the events can't be weighed by this cause, on a grid from this year on; a name of no event is told before
fn is_unweighed(
    rt: &HostRuntime,
    is_given: bool,
    model: &str,
    older: u32,
    cause: &str,
) -> Result<bool, Fail> {
    let script = format!(in rt.alloc();
        "open main\ngrid {older} 2000\nprint \"Z\"\nprint \"R\"\n"
    )?;
    let lines = format!(in rt.alloc();
        "at v0\ngrid {older} 2000\nrefused 3 no name\nrefused 4 {cause}\n"
    )?;
    let outcome = outcome_with(rt, is_given, model, script.as_str())?;
    is_between(rt, &outcome, lines.as_str())
}

#[test]
fn unweighed_events(rt: HostRuntime) -> Result<(), Fail> {
    for (is_given, model, older, cause) in &UNWEIGHED {
        assert!(rt;
            is_unweighed(&rt, *is_given, model, *older, cause)?,
            "{model}"
        );
    }
    Ok(())
}

/// On curves that cover less than the grid.
#[test]
fn uncovered_years(rt: HostRuntime) -> Result<(), Fail> {
    let words = [
        "alone",
        "--curves",
        "C.14c=c,D.14c=d",
        "--models",
        "main=m",
        "--sessions",
        "s",
    ];
    let files = [
        ("c", "2002,2000,20\n2000,2000,20\n"),
        ("d", "2010,2000,20\n2000,2000,20\n"),
        ("m", "R_Date(\"R\",18385,1);"),
        (
            "s",
            "open main\ngrid 2003 2000\nprint \"R\"\ngrid 2001 2000\nprint \"R\"\n",
        ),
    ];
    let outcome = outcome_of(&rt, words.as_slice(), files.as_slice())?;
    assert_eq!(rt;
        outcome.output.as_slice(),
        b"session 1\nat v0\ngrid 2003 2000\nrefused 3 uncovered 2003\ngrid 2001 2000\nrefused 5 far date 2001\nend 1\n".as_slice()
    );
    Ok(())
}
