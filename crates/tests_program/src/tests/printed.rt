use super::{TWO_EVENTS, WORDS, outcome_of};
use std::test::Fail;

const MOVES: &str =
    "open main\ngrid 2002 2000\nprint \"X\"\nadd \"s\" Boundary(\"e\");\nprint \"X\"\ndrop \"e\"\ninsert \"Y\" Boundary(\"e\");\nprint \"X\"\ninsert \"Z\" Boundary(\"c\");\ninsert \"p\" Boundary(\"c\");\nrename \"e\" \"end\"\ndrop \"e\"\ndrop \"end\"\nprint \"X\"\ninsert \"p\" Date(\"X\");\nprint \"X\"\n";

const MOVED: &str =
    "session 1\nat v0\ngrid 2002 2000\nmarginal \"X\" v0\n2002 53 BC 300000 300000\n2001 52 BC 400000 400000\n2000 51 BC 300000 300000\nmade v1\nmarginal \"X\" v1\n2002 53 BC 354838 354839\n2001 52 BC 381720 381721\n2000 51 BC 263440 263441\nmade v2\nmade v3\nmarginal \"X\" v3\n2002 53 BC 433333 433334\n2001 52 BC 383333 383334\n2000 51 BC 183333 183334\nrefused 9 wrong kind Phase\nrefused 10 wrong kind Phase\nmade v4\nrefused 12 no name\nmade v5\nmarginal \"X\" v5\n2002 53 BC 300000 300000\n2001 52 BC 400000 400000\n2000 51 BC 300000 300000\nmade v6\nrefused 16 ambiguous 2\nend 1\n";

/// A model and a script, and the whole output.
static TRANSCRIPTS: [(&str, &str, &str); 20] = [
    // Two events in order, a tie allowed: of six datings three have A in the oldest year.
    (
        TWO_EVENTS,
        "open main\ngrid 2002 2000\nprint \"A\"\n",
        "session 1\nat v0\ngrid 2002 2000\nmarginal \"A\" v0\n2002 53 BC 500000 500000\n2001 52 BC 333333 333334\n2000 51 BC 166666 166667\nend 1\n",
    ),
    // A grid of one year.
    (
        TWO_EVENTS,
        "open main\ngrid 2000 2000\nprint \"A\"",
        "session 1\nat v0\ngrid 2000 2000\nmarginal \"A\" v0\n2000 51 BC 1000000 1000000\nend 1\n",
    ),
    // The second event, across the turn of the era.
    (
        TWO_EVENTS,
        "open main\ngrid 1950 1949\nprint \"B\"\n",
        "session 1\nat v0\ngrid 1950 1949\nmarginal \"B\" v0\n1950 1 BC 333333 333334\n1949 AD 1 666666 666667\nend 1\n",
    ),
    // 50 BC before 60 BC: no dating is allowed.
    (
        "Sequence(){C_Date(\"P\",-50);C_Date(\"Q\",-60);};",
        "open main\ngrid 2010 1998\nprint \"P\"\n",
        "session 1\nat v0\ngrid 2010 1998\nimpossible \"P\" v0\nend 1\n",
    ),
    // A year outside the grid makes a model impossible, and is no refusal.
    (
        "Sequence(){C_Date(\"P\",-50);};",
        "open main\ngrid 1998 1990\nprint \"P\"\n",
        "session 1\nat v0\ngrid 1998 1990\nimpossible \"P\" v0\nend 1\n",
    ),
    // The version of the session: a third event behind the two.
    (
        TWO_EVENTS,
        "open main\nadd \"s\" Date(\"C\");\ngrid 2001 2000\nprint \"C\"\nundo\nprint \"B\"\n",
        "session 1\nat v0\nmade v1\ngrid 2001 2000\nmarginal \"C\" v1\n2001 52 BC 250000 250000\n2000 51 BC 750000 750000\nat v0\nmarginal \"B\" v0\n2001 52 BC 333333 333334\n2000 51 BC 666666 666667\nend 1\n",
    ),
    // A node put before another: of four datings two have it at each year.
    (
        TWO_EVENTS,
        "open main\ninsert \"B\" Date(\"M\");\ngrid 2001 2000\nprint \"M\"\n",
        "session 1\nat v0\nmade v1\ngrid 2001 2000\nmarginal \"M\" v1\n2001 52 BC 500000 500000\n2000 51 BC 500000 500000\nend 1\n",
    ),
    // A Boundary that comes behind both events, moves between them, is refused in a Phase, and goes.
    (
        "Sequence(\"s\"){Boundary(\"b\");Date(\"X\");Date(\"Y\");};Phase(\"p\"){Date(\"Z\");};",
        MOVES,
        MOVED,
    ),
    // Members of a Phase are unordered.
    (
        "Phase(\"p\"){Date(\"A\");Date(\"B\");};",
        "open main\ngrid 2001 2000\nprint \"A\"\n",
        "session 1\nat v0\ngrid 2001 2000\nmarginal \"A\" v0\n2001 52 BC 500000 500000\n2000 51 BC 500000 500000\nend 1\n",
    ),
    // An After group: what precedes it doesn't bound it, and what follows it isn't earlier.
    (
        "Sequence(){Date(\"A\");After(\"t\"){Date(\"X\");};Date(\"B\");};",
        "open main\ngrid 2001 2000\nprint \"B\"\nprint \"A\"\nprint \"X\"\n",
        "session 1\nat v0\ngrid 2001 2000\nmarginal \"B\" v0\n2001 52 BC 200000 200000\n2000 51 BC 800000 800000\nmarginal \"A\" v0\n2001 52 BC 600000 600000\n2000 51 BC 400000 400000\nmarginal \"X\" v0\n2001 52 BC 600000 600000\n2000 51 BC 400000 400000\nend 1\n",
    ),
    // A Before group: what follows it doesn't bound it, and what precedes it isn't later.
    (
        "Sequence(){Date(\"A\");Before(\"t\"){Date(\"Y\");};Date(\"B\");};",
        "open main\ngrid 2001 2000\nprint \"A\"\nprint \"B\"\nprint \"Y\"\n",
        "session 1\nat v0\ngrid 2001 2000\nmarginal \"A\" v0\n2001 52 BC 800000 800000\n2000 51 BC 200000 200000\nmarginal \"B\" v0\n2001 52 BC 400000 400000\n2000 51 BC 600000 600000\nmarginal \"Y\" v0\n2001 52 BC 400000 400000\n2000 51 BC 600000 600000\nend 1\n",
    ),
    // A year outside the grid at the top.
    (
        "C_Date(\"P\",-50);",
        "open main\ngrid 1998 1990\nprint \"P\"\n",
        "session 1\nat v0\ngrid 1998 1990\nimpossible \"P\" v0\nend 1\n",
    ),
    // The years 1 BC and AD 1 stand side by side.
    (
        "Date(\"A\");",
        "open main\ngrid 1950 1949\nprint \"A\"\n",
        "session 1\nat v0\ngrid 1950 1949\nmarginal \"A\" v0\n1950 1 BC 500000 500000\n1949 AD 1 500000 500000\nend 1\n",
    ),
    // Empty groups bind nothing.
    (
        "Phase(\"e\"){};Date(\"A\");",
        "open main\ngrid 2001 2000\nprint \"A\"\n",
        "session 1\nat v0\ngrid 2001 2000\nmarginal \"A\" v0\n2001 52 BC 500000 500000\n2000 51 BC 500000 500000\nend 1\n",
    ),
    // An After group behind all others.
    (
        "Sequence(){Date(\"A\");After(){Date(\"X\");};};",
        "open main\ngrid 2001 2000\nprint \"A\"\n",
        "session 1\nat v0\ngrid 2001 2000\nmarginal \"A\" v0\n2001 52 BC 500000 500000\n2000 51 BC 500000 500000\nend 1\n",
    ),
    // A Before group in front of all others.
    (
        "Sequence(){Before(){Date(\"Y\");};Date(\"A\");};",
        "open main\ngrid 2001 2000\nprint \"A\"\n",
        "session 1\nat v0\ngrid 2001 2000\nmarginal \"A\" v0\n2001 52 BC 500000 500000\n2000 51 BC 500000 500000\nend 1\n",
    ),
    // A span between two Boundaries.
    (
        "Sequence(){Boundary(\"S\");Date(\"A\");Boundary(\"E\");};",
        "open main\ngrid 2001 2000\nprint \"A\"\nprint \"S\"\nprint \"E\"\n",
        "session 1\nat v0\ngrid 2001 2000\nmarginal \"A\" v0\n2001 52 BC 500000 500000\n2000 51 BC 500000 500000\nmarginal \"S\" v0\n2001 52 BC 666666 666667\n2000 51 BC 333333 333334\nmarginal \"E\" v0\n2001 52 BC 333333 333334\n2000 51 BC 666666 666667\nend 1\n",
    ),
    // A third isn't exact, so a half isn't either.
    (
        "Sequence(){Boundary(\"S\");Date(\"A\");Boundary(\"E\");};",
        "open main\ngrid 2002 2000\nprint \"S\"\n",
        "session 1\nat v0\ngrid 2002 2000\nmarginal \"S\" v0\n2002 53 BC 499999 500001\n2001 52 BC 333333 333334\n2000 51 BC 166666 166667\nend 1\n",
    ),
    // A span in a span: 7 of 11, and 4.
    (
        "Sequence(){Boundary(\"S\");Sequence(){Boundary(\"U\");Date(\"A\");Boundary(\"V\");};Boundary(\"E\");};",
        "open main\ngrid 2001 2000\nprint \"S\"\nprint \"A\"\n",
        "session 1\nat v0\ngrid 2001 2000\nmarginal \"S\" v0\n2001 52 BC 636363 636364\n2000 51 BC 363636 363637\nmarginal \"A\" v0\n2001 52 BC 500000 500000\n2000 51 BC 500000 500000\nend 1\n",
    ),
    // A name of two nodes, of none, and of a group.
    (
        "Phase(\"p\"){Date(\"A\");Date(\"A\");};",
        "open main\ngrid 2001 2000\nprint \"A\"\nprint \"Z\"\nprint \"p\"\n",
        "session 1\nat v0\ngrid 2001 2000\nrefused 3 ambiguous 2\nrefused 4 no name\nrefused 5 wrong kind Phase\nend 1\n",
    ),
];

#[test]
fn transcripts(rt: HostRuntime) -> Result<(), Fail> {
    for (model, script, want) in &TRANSCRIPTS {
        let files = [("m", *model), ("s", *script)];
        let outcome = outcome_of(&rt, WORDS.as_slice(), files.as_slice())?;
        assert_eq!(rt; outcome.told.as_str(), "", "{model}");
        assert_eq!(rt; outcome.output.as_slice(), want.as_bytes(), "{model}");
    }
    Ok(())
}
