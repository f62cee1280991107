//! Ranges, models and counts, in transcripts.
use super::{TWO_EVENTS, WORDS, outcome_of};
use std::test::Fail;

/// A model and a script, and the whole output.
static WRITTEN: [(&str, &str, &str); 8] = [
    // The years that cover most, by their lower bounds.
    (
        TWO_EVENTS,
        "open main\ngrid 2002 2000\nranges \"A\"\nranges \"B\"\n",
        "session 1\nat v0\ngrid 2002 2000\nranges \"A\" v0\n68.3 833333\n2002 53 BC to 2001 52 BC\n95.4 999999\n2002 53 BC to 2000 51 BC\n99.7 999999\n2002 53 BC to 2000 51 BC\nranges \"B\" v0\n68.3 833333\n2001 52 BC to 2000 51 BC\n95.4 999999\n2002 53 BC to 2000 51 BC\n99.7 999999\n2002 53 BC to 2000 51 BC\nend 1\n",
    ),
    // Where two are alike the older is taken first.
    (
        "Date(\"A\");",
        "open main\ngrid 2004 2000\nranges \"A\"\n",
        "session 1\nat v0\ngrid 2004 2000\nranges \"A\" v0\n68.3 800000\n2004 55 BC to 2001 52 BC\n95.4 1000000\n2004 55 BC to 2000 51 BC\n99.7 1000000\n2004 55 BC to 2000 51 BC\nend 1\n",
    ),
    // No dating is allowed.
    (
        "C_Date(\"P\",-50);",
        "open main\ngrid 1998 1990\nranges \"P\"\n",
        "session 1\nat v0\ngrid 1998 1990\nimpossible \"P\" v0\nend 1\n",
    ),
    // Refused as a print is.
    (
        "Phase(\"p\"){Date(\"A\");Date(\"A\");R_Date(\"R\",2000,30);};",
        "ranges \"A\"\nopen main\nranges \"A\"\ngrid 2001 2000\nranges \"A\"\nranges \"Z\"\nranges \"p\"\nranges \"R\"\n",
        "session 1\nrefused 1 not open\nat v0\nrefused 3 no grid\ngrid 2001 2000\nrefused 5 ambiguous 2\nrefused 6 no name\nrefused 7 wrong kind Phase\nrefused 8 no curve\nend 1\n",
    ),
    // The text of the version's model, and its fingerprint.
    (
        TWO_EVENTS,
        "model\nopen main\nmodel\nadd \"s\" Boundary(\"e\");\nmodel\nrename \"s\" \"\"\nmodel\n",
        "session 1\nrefused 1 not open\nat v0\nmodel v0 42 92d186abdafba214eff256aef4465c043e12730500fbd1d0a7bfd89f0700a28c\nSequence(\"s\"){\n Date(\"A\");\n Date(\"B\");\n};\nmade v1\nmodel v1 58 4dceeb0b3cd8f3b6e18c4d488e061f1aff40a62e6cf4af7f59108dbf970e2715\nSequence(\"s\"){\n Date(\"A\");\n Date(\"B\");\n Boundary(\"e\");\n};\nmade v2\nmodel v2 55 56c75a6c4e96c2920027df99b9db7be2b7ae839456327607af57f1e2ff276ace\nSequence(){\n Date(\"A\");\n Date(\"B\");\n Boundary(\"e\");\n};\nend 1\n",
    ),
    // Numbers in one form, names left out with their commas.
    (
        "// a file\nOptions(){BCAD=TRUE;};\nPlot(){C_Date(\"B\",-50,05.50); C_Date(12,0); R_Date(\"\",+2000.50,30.0); Phase(){Date(); After(\"t\"){Before(){};}}};\n",
        "open main\nmodel\n",
        "session 1\nat v0\nmodel v0 107 5dca467ef671a3bb66b0e7354b4cf2ad010362777a3171ba777cf3feb8942cad\nC_Date(\"B\",-50,5.5);\nC_Date(12);\nR_Date(2000.5,30);\nPhase(){\n Date();\n After(\"t\"){\n  Before(){\n  };\n };\n};\nend 1\n",
    ),
    // Counts of claims, with or without a version.
    (
        TWO_EVENTS,
        "work\nopen main\ngrid 2001 2000\nprint \"A\"\nwork\n",
        "session 1\nwork claims 0 hits 0 mine 0 busy 0 noroom 0 published 0\nat v0\ngrid 2001 2000\nmarginal \"A\" v0\n2001 52 BC 666666 666667\n2000 51 BC 333333 333334\nwork claims 0 hits 0 mine 0 busy 0 noroom 0 published 0\nend 1\n",
    ),
    // Remarks and blanks; the line of a refusal counts them.
    (
        TWO_EVENTS,
        "# a day\n\n \topen  main \t\n  grid +2001 02000\r\n#print \"A\"\nprint \"Z\"\n",
        "session 1\nat v0\ngrid 2001 2000\nrefused 6 no name\nend 1\n",
    ),
];

#[test]
fn written(rt: HostRuntime) -> Result<(), Fail> {
    for (model, script, want) in &WRITTEN {
        let files = [("m", *model), ("s", *script)];
        let outcome = outcome_of(&rt, WORDS.as_slice(), files.as_slice())?;
        assert_eq!(rt; outcome.told.as_str(), "", "{script}");
        assert_eq!(rt; outcome.output.as_slice(), want.as_bytes(), "{script}");
    }
    Ok(())
}

/// A curve that comes to the same age three times: the years between have next to nothing.
#[test]
fn three_runs(rt: HostRuntime) -> Result<(), Fail> {
    let words = [
        "alone",
        "--curves",
        "C.14c=c",
        "--models",
        "main=m",
        "--sessions",
        "s",
    ];
    let files = [
        (
            "c",
            "2006,2000,0\n2005,2100,0\n2004,2000,0\n2003,2100,0\n2002,2000,0\n",
        ),
        ("m", "R_Date(\"R\",2000,10);"),
        ("s", "open main\ngrid 2006 2002\nranges \"R\"\n"),
    ];
    let outcome = outcome_of(&rt, words.as_slice(), files.as_slice())?;
    assert_eq!(rt;
        outcome.output.as_slice(),
        b"session 1\nat v0\ngrid 2006 2002\nranges \"R\" v0\n68.3 999999\n2006 57 BC to 2006 57 BC\n2004 55 BC to 2004 55 BC\n2002 53 BC to 2002 53 BC\n95.4 999999\n2006 57 BC to 2006 57 BC\n2004 55 BC to 2004 55 BC\n2002 53 BC to 2002 53 BC\n99.7 999999\n2006 57 BC to 2006 57 BC\n2004 55 BC to 2004 55 BC\n2002 53 BC to 2002 53 BC\nend 1\n".as_slice()
    );
    Ok(())
}
