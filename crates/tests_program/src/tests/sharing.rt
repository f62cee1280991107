use super::{Outcome, TWO_EVENTS, outcome_of};
use std::test::Fail;

const FIRST: &str = "open main\nadd \"s\" Date(\"C\");\ncommit main\n";

const SECOND: &str = "open main\nadd \"s\" Date(\"D\");\ncommit main\nundo\nundo\ntake v7\n";

const PAIR: &str = "s,t";

const EIGHT: &str = "e,e,s,e,e,e,e,t";

/// Sessions and turns, the output, and the seats of the journal in their order.
static RUNS: [(&str, &str, &str, &[u32]); 7] = [
    // The one that commits second is told of the other's version.
    (
        PAIR,
        "1,2,1,2,1,2",
        "session 1\nat v0\nmade v1\ncommitted v1\nend 1\nsession 2\nat v0\nmade v2\nrefused 3 moved v1\nat v0\nrefused 5 no parent\nrefused 6 no version 3\nend 2\n",
        &[1, 2, 1, 2, 1, 2, 2, 2, 2],
    ),
    // The second runs first.
    (
        PAIR,
        "2,2,2,2,2,2",
        "session 1\nat v1\nmade v2\ncommitted v2\nend 1\nsession 2\nat v0\nmade v1\ncommitted v1\nat v0\nrefused 5 no parent\nrefused 6 no version 2\nend 2\n",
        &[2, 2, 2, 2, 2, 2, 1, 1, 1],
    ),
    // The first runs to its end before the second begins.
    (
        PAIR,
        "1",
        "session 1\nat v0\nmade v1\ncommitted v1\nend 1\nsession 2\nat v1\nmade v2\ncommitted v2\nat v1\nat v0\nrefused 6 no version 3\nend 2\n",
        &[1, 1, 1, 2, 2, 2, 2, 2, 2],
    ),
    // So it does without turns, and where it has more turns than acts.
    (
        PAIR,
        "",
        "session 1\nat v0\nmade v1\ncommitted v1\nend 1\nsession 2\nat v1\nmade v2\ncommitted v2\nat v1\nat v0\nrefused 6 no version 3\nend 2\n",
        &[1, 1, 1, 2, 2, 2, 2, 2, 2],
    ),
    (
        PAIR,
        "1,1,1,1,1,2",
        "session 1\nat v0\nmade v1\ncommitted v1\nend 1\nsession 2\nat v1\nmade v2\ncommitted v2\nat v1\nat v0\nrefused 6 no version 3\nend 2\n",
        &[1, 1, 1, 2, 2, 2, 2, 2, 2],
    ),
    // The second has three turns, and goes on when the first has run to its end.
    (
        PAIR,
        "2,2,2,1",
        "session 1\nat v1\nmade v2\ncommitted v2\nend 1\nsession 2\nat v0\nmade v1\ncommitted v1\nat v0\nrefused 5 no parent\nrefused 6 no version 3\nend 2\n",
        &[2, 2, 2, 1, 1, 1, 2, 2, 2],
    ),
    // Turns of sessions without work are passed over.
    (
        EIGHT,
        "1,8,2,8,3,7,7,3,8,3,3,3",
        "session 1\nend 1\nsession 2\nend 2\nsession 3\nat v0\nmade v2\nrefused 3 moved v1\nend 3\nsession 4\nend 4\nsession 5\nend 5\nsession 6\nend 6\nsession 7\nend 7\nsession 8\nat v0\nmade v1\ncommitted v1\nat v0\nrefused 5 no parent\nrefused 6 no version 3\nend 8\n",
        &[8, 8, 3, 3, 8, 3, 8, 8, 8],
    ),
];

// the words of these sessions, which take these turns, or none
fn run_of(rt: &HostRuntime, sessions: &str, turns: &str) -> Result<Outcome, Fail> {
    let files = [("m", TWO_EVENTS), ("e", ""), ("s", FIRST), ("t", SECOND)];
    let all = [
        "alone",
        "--models",
        "main=m",
        "--sessions",
        sessions,
        "--turns",
        turns,
    ];
    let count = if turns.is_empty() { 5 } else { 7 };
    let words = all.get(..count).ok_or("too few words")?;
    outcome_of(rt, words, files.as_slice())
}

/// Sessions that change one model in turns.
#[test]
fn turns(rt: HostRuntime) -> Result<(), Fail> {
    for (sessions, turns, want, seats) in &RUNS {
        let outcome = run_of(&rt, sessions, turns)?;
        assert_eq!(rt; outcome.told.as_str(), "", "{turns}");
        assert_eq!(rt; outcome.output.as_slice(), want.as_bytes(), "{turns}");
        assert_eq!(rt; outcome.seats.as_slice(), *seats, "{turns}");
    }
    Ok(())
}

/// Two models have heads of their own, and versions in one row.
#[test]
fn two_models(rt: HostRuntime) -> Result<(), Fail> {
    let words = [
        "alone",
        "--models",
        "main=m,side=n",
        "--sessions",
        "s,t",
        "--turns",
        "2,1,2,1,2,1",
    ];
    let files = [
        ("m", TWO_EVENTS),
        ("n", "Phase(\"p\"){Date(\"A\");};"),
        ("s", FIRST),
        (
            "t",
            "open side\nadd \"p\" Date(\"D\");\ncommit side\ncommit main\n",
        ),
    ];
    let outcome = outcome_of(&rt, words.as_slice(), files.as_slice())?;
    assert_eq!(rt;
        outcome.output.as_slice(),
        b"session 1\nat v0\nmade v3\ncommitted v3\nend 1\nsession 2\nat v1\nmade v2\ncommitted v2\nrefused 4 moved v3\nend 2\n".as_slice()
    );
    Ok(())
}
