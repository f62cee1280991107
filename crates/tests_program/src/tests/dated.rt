use super::{WORDS, outcome_of};
use std::test::Fail;

/// A curve that serves no date.
const OTHER: &str = "2010,1990,5\n1990,2010,5\n";

const PRINT: &str = "open main\ngrid 2001 2000\nprint \"R\"\n";

/// Words with a first curve and a second one, which serves no date.
const WITH_CURVES: [&str; 7] = [
    "alone",
    "--curves",
    "C.14c=c,other=d",
    "--models",
    "main=m",
    "--sessions",
    "s",
];

/// A curve, a model and a script, and the whole output.
static DATED: [(&str, &str, &str, &str); 10] = [
    // A flat curve weighs two years alike.
    (
        "# flat\n2002,2000,20\n2000,2000,20\n",
        "R_Date(\"R\",2000,30);",
        "open main\ngrid 2001 2000\nprint \"R\"\n",
        "session 1\nat v0\ngrid 2001 2000\nmarginal \"R\" v0\n2001 52 BC 499999 500001\n2000 51 BC 499999 500001\nend 1\n",
    ),
    // The same file in the other order, with CRLF.
    (
        "# flat\r\n2000,2000,20\r\n2002,2000,20\r\n",
        "R_Date(\"R\",2000,30);",
        "open main\ngrid 2001 2000\nprint \"R\"\n",
        "session 1\nat v0\ngrid 2001 2000\nmarginal \"R\" v0\n2001 52 BC 499999 500001\n2000 51 BC 499999 500001\nend 1\n",
    ),
    // So far off that each weight is tiny: not impossible.
    (
        "# flat\n2002,2000,20\n2000,2000,20\n",
        "R_Date(\"R\",17000,1);",
        "open main\ngrid 2001 2000\nprint \"R\"\n",
        "session 1\nat v0\ngrid 2001 2000\nmarginal \"R\" v0\n2001 52 BC 499999 500001\n2000 51 BC 499999 500001\nend 1\n",
    ),
    // More than 16,384 years off.
    (
        "# flat\n2002,2000,20\n2000,2000,20\n",
        "R_Date(\"R\",18385,1);",
        "open main\ngrid 2001 2000\nprint \"R\"\n",
        "session 1\nat v0\ngrid 2001 2000\nrefused 3 far date 2001\nend 1\n",
    ),
    // Exactly 16,384 years off.
    (
        "2002,2000,0\n2000,2000,0\n",
        "R_Date(\"R\",18384,1);",
        "open main\ngrid 2001 2000\nprint \"R\"\n",
        "session 1\nat v0\ngrid 2001 2000\nmarginal \"R\" v0\n2001 52 BC 499999 500001\n2000 51 BC 499999 500001\nend 1\n",
    ),
    // A year outside the curve.
    (
        "# flat\n2002,2000,20\n2000,2000,20\n",
        "R_Date(\"R\",17000,1);",
        "open main\ngrid 2003 2000\nprint \"R\"\n",
        "session 1\nat v0\ngrid 2003 2000\nrefused 3 uncovered 2003\nend 1\n",
    ),
    // The curve's own error counts: weights as 1/30 to 1/50.
    (
        "2001,2000,0\n2000,2000,40\n",
        "R_Date(\"R\",2000,30);",
        "open main\ngrid 2001 2000\nprint \"R\"\n",
        "session 1\nat v0\ngrid 2001 2000\nmarginal \"R\" v0\n2001 52 BC 624999 625001\n2000 51 BC 374999 375001\nend 1\n",
    ),
    // A year between two rows lies on the straight line.
    (
        "2002,2010,0\n2000,1990,0\n",
        "R_Date(\"R\",2000,10);",
        "open main\ngrid 2002 2000\nprint \"R\"\n",
        "session 1\nat v0\ngrid 2002 2000\nmarginal \"R\" v0\n2002 53 BC 274068 274069\n2001 52 BC 451862 451863\n2000 51 BC 274068 274069\nend 1\n",
    ),
    // A calendar year with an error.
    (
        "# flat\n2002,2000,20\n2000,2000,20\n",
        "C_Date(\"P\",-51,5);",
        "open main\ngrid 2001 1999\nprint \"P\"\n",
        "session 1\nat v0\ngrid 2001 1999\nmarginal \"P\" v0\n2001 52 BC 331103 331104\n2000 51 BC 337792 337793\n1999 50 BC 331103 331104\nend 1\n",
    ),
    // A year with an error behind an undated event, and another year in its place.
    (
        "# flat\n2002,2000,20\n2000,2000,20\n",
        "Sequence(\"s\"){Date(\"A\");C_Date(\"B\",-50,5);};",
        "open main\ngrid 2001 1999\nprint \"A\"\nset \"B\" C_Date(-51,5);\nprint \"A\"\n",
        "session 1\nat v0\ngrid 2001 1999\nmarginal \"A\" v0\n2001 52 BC 493466 493467\n2000 51 BC 336567 336568\n1999 50 BC 169966 169967\nmade v1\nmarginal \"A\" v1\n2001 52 BC 499999 500001\n2000 51 BC 334448 334449\n1999 50 BC 165551 165552\nend 1\n",
    ),
];

#[test]
fn dated_events(rt: HostRuntime) -> Result<(), Fail> {
    for (curve, model, script, want) in &DATED {
        let files = [("c", *curve), ("d", OTHER), ("m", *model), ("s", *script)];
        let outcome = outcome_of(&rt, WITH_CURVES.as_slice(), files.as_slice())?;
        assert_eq!(rt; outcome.told.as_str(), "", "{model}");
        assert_eq!(rt; outcome.output.as_slice(), want.as_bytes(), "{model}");
    }
    Ok(())
}

/// The curve files of the cases below.
const CURVES: [(&str, &str); 2] = [
    ("c", "2002,2000,20\n2000,2000,20\n"),
    ("d", "2001,2000,0\n2000,2000,40\n"),
];

/// Curves by their names, a model, and the whole output: which curve serves the model.
static SERVED: [(&str, &str, &str); 5] = [
    // The one that the model names, and not the first.
    (
        "C.14c=c,other.14c=d",
        "Curve(\"other\");R_Date(\"R\",2000,30);",
        "session 1\nat v0\ngrid 2001 2000\nmarginal \"R\" v0\n2001 52 BC 624999 625001\n2000 51 BC 374999 375001\nend 1\n",
    ),
    // In capitals or not; the last text of a Curve counts.
    (
        "C.14c=c,D.14C=d",
        "Plot(){Curve(\"C.14c\",\"d\");R_Date(\"R\",2000,30);};",
        "session 1\nat v0\ngrid 2001 2000\nmarginal \"R\" v0\n2001 52 BC 624999 625001\n2000 51 BC 374999 375001\nend 1\n",
    ),
    // By an option.
    (
        "C.14c=c,d.14c=d",
        "Options(){Curve=\"D.14c\";};R_Date(\"R\",2000,30);",
        "session 1\nat v0\ngrid 2001 2000\nmarginal \"R\" v0\n2001 52 BC 624999 625001\n2000 51 BC 374999 375001\nend 1\n",
    ),
    // The first, by its name and without one.
    (
        "C.14c=c,d.14c=d",
        "Curve(\"c\");R_Date(\"R\",2000,30);",
        "session 1\nat v0\ngrid 2001 2000\nmarginal \"R\" v0\n2001 52 BC 499999 500001\n2000 51 BC 499999 500001\nend 1\n",
    ),
    (
        "C.14c=c,d.14c=d",
        "R_Date(\"R\",2000,30);",
        "session 1\nat v0\ngrid 2001 2000\nmarginal \"R\" v0\n2001 52 BC 499999 500001\n2000 51 BC 499999 500001\nend 1\n",
    ),
];

#[test]
fn curves_of_models(rt: HostRuntime) -> Result<(), Fail> {
    for (curves, model, want) in &SERVED {
        let [first, second] = CURVES;
        let files = [first, second, ("m", *model), ("s", PRINT)];
        let words = [
            "alone",
            "--curves",
            *curves,
            "--models",
            "main=m",
            "--sessions",
            "s",
        ];
        let outcome = outcome_of(&rt, words.as_slice(), files.as_slice())?;
        assert_eq!(rt; outcome.told.as_str(), "", "{model}");
        assert_eq!(rt; outcome.output.as_slice(), want.as_bytes(), "{model}");
    }
    Ok(())
}

#[test]
fn no_curve(rt: HostRuntime) -> Result<(), Fail> {
    let files = [("m", "R_Date(\"R\",2000,30);"), ("s", PRINT)];
    let outcome = outcome_of(&rt, WORDS.as_slice(), files.as_slice())?;
    assert_eq!(rt;
        outcome.output.as_slice(),
        b"session 1\nat v0\ngrid 2001 2000\nrefused 3 no curve\nend 1\n".as_slice()
    );
    Ok(())
}
