//! The first faults of scripts, as the lines of their statuses.
use crate::told::told;
use std::test::Fail;

/// First words that are no command's.
static WORDS: [(&str, &str); 15] = [
    ("x", "session 1 line 1: unknown x\n"),
    ("undo\nGrid 5 3", "session 1 line 2: unknown Grid\n"),
    ("  # note", "session 1 line 1: unknown #\n"),
    ("!", "session 1 line 1: unknown !\n"),
    ("unknown", "session 1 line 1: unknown unknown\n"),
    ("undo,", "session 1 line 1: unknown undo,\n"),
    ("\"A\"", "session 1 line 1: unknown \"A\"\n"),
    ("print\"A\"", "session 1 line 1: unknown print\"A\"\n"),
    ("undo\r\n\r\nundo\r", "session 1 line 3: unknown undo\r\n"),
    ("é", "session 1 line 1: unknown é\n"),
    ("\u{a0}undo", "session 1 line 1: unknown \u{a0}undo\n"),
    (
        "aaaaaaaaaaaaaaaaaaaaaaaaaaaaaaaaaaaaaaaaaaaaaaaaaaaaaaaaaaaaaaaaaaaaaaaaaaaaaaaaaaaaaaaaaaaaaaaaaaaaaaaaaaaaaaaaaaaaaaaaa",
        "session 1 line 1: unknown aaaaaaaaaaaaaaaaaaaaaaaaaaaaaaaaaaaaaaaaaaaaaaaaaaaaaaaaaaaaaaaaaaaaaaaaaaaaaaaaaaaaaaaaaaaaaaaaaaaaaaaaaaaaaaaaaaaaaaaa\n",
    ),
    (
        "ééééééééééééééééééééééééééééééééééééééééééééééééééééééééééééé",
        "session 1 line 1: unknown éééééééééééééééééééééééééééééééééééééééééééééééééééééééééééé\n",
    ),
    ("take\u{b}v0", "session 1 line 1: unknown take\u{b}v0\n"),
    ("undo\u{c}", "session 1 line 1: unknown undo\u{c}\n"),
];

/// Fields that a command doesn't take.
static FIELDS: [(&str, &str); 50] = [
    ("undo v0", "session 1 line 1: syntax\n"),
    ("model main", "session 1 line 1: syntax\n"),
    ("work 0", "session 1 line 1: syntax\n"),
    ("\n# note\n \t\nundo 1\n", "session 1 line 4: syntax\n"),
    ("grid", "session 1 line 1: syntax\n"),
    ("grid 5", "session 1 line 1: syntax\n"),
    ("grid 5 3 1", "session 1 line 1: syntax\n"),
    ("grid 5,3", "session 1 line 1: syntax\n"),
    ("grid 5 x", "session 1 line 1: syntax\n"),
    ("grid 5 3.0", "session 1 line 1: syntax\n"),
    ("grid 5 --3", "session 1 line 1: syntax\n"),
    ("grid + 3", "session 1 line 1: syntax\n"),
    ("open", "session 1 line 1: syntax\n"),
    ("open a b", "session 1 line 1: syntax\n"),
    ("open a,b", "session 1 line 1: syntax\n"),
    ("open é", "session 1 line 1: syntax\n"),
    (
        "open aaaaaaaaaaaaaaaaaaaaaaaaaaaaaaaaaaaaaaaaaaaaaaaaaaaaaaaaaaaaaaaaa",
        "session 1 line 1: syntax\n",
    ),
    ("commit", "session 1 line 1: syntax\n"),
    ("commit v0 main", "session 1 line 1: syntax\n"),
    ("commit \"main\"", "session 1 line 1: syntax\n"),
    ("take", "session 1 line 1: syntax\n"),
    ("take 7", "session 1 line 1: syntax\n"),
    ("take v", "session 1 line 1: syntax\n"),
    ("take v12345678", "session 1 line 1: syntax\n"),
    ("take v-1", "session 1 line 1: syntax\n"),
    ("take vx", "session 1 line 1: syntax\n"),
    ("take v1 v2", "session 1 line 1: syntax\n"),
    ("print", "session 1 line 1: syntax\n"),
    ("print A", "session 1 line 1: syntax\n"),
    ("print \"A", "session 1 line 1: syntax\n"),
    ("print \"A\" \"B\"", "session 1 line 1: syntax\n"),
    ("print \"A\"B", "session 1 line 1: syntax\n"),
    ("print \"\"", "session 1 line 1: syntax\n"),
    ("print \"A\tB\"", "session 1 line 1: syntax\n"),
    ("print \"\u{7f}\"", "session 1 line 1: syntax\n"),
    (
        "print \"aaaaaaaaaaaaaaaaaaaaaaaaaaaaaaaaaaaaaaaaaaaaaaaaaaaaaaaaaaaaaaaaaaaaaaaaaaaaaaaaaaaaaaaaaaaaaaaaaaaaaaaaaaaaaaaaaaaaaaaaa\"",
        "session 1 line 1: syntax\n",
    ),
    ("ranges", "session 1 line 1: syntax\n"),
    ("ranges A", "session 1 line 1: syntax\n"),
    ("ranges \"\"", "session 1 line 1: syntax\n"),
    ("ranges \"A\" 95.4", "session 1 line 1: syntax\n"),
    ("drop", "session 1 line 1: syntax\n"),
    ("drop A", "session 1 line 1: syntax\n"),
    ("drop \"A\" \"B\"", "session 1 line 1: syntax\n"),
    ("drop \"\"", "session 1 line 1: syntax\n"),
    ("rename \"A\"", "session 1 line 1: syntax\n"),
    ("rename \"A\" B", "session 1 line 1: syntax\n"),
    ("rename \"A\"\"B\"", "session 1 line 1: syntax\n"),
    ("rename \"\" \"B\"", "session 1 line 1: syntax\n"),
    ("rename \"A\" \"B\" \"C\"", "session 1 line 1: syntax\n"),
    (
        "rename \"A\" \"aaaaaaaaaaaaaaaaaaaaaaaaaaaaaaaaaaaaaaaaaaaaaaaaaaaaaaaaaaaaaaaaaaaaaaaaaaaaaaaaaaaaaaaaaaaaaaaaaaaaaaaaaaaaaaaaaaaaaaaaa\"",
        "session 1 line 1: syntax\n",
    ),
];

/// Statements.
static STATEMENTS: [(&str, &str); 32] = [
    ("set \"A\"", "session 1 line 1: syntax\n"),
    ("set \"A\" ", "session 1 line 1: syntax\n"),
    ("set A Date();", "session 1 line 1: syntax\n"),
    ("set \"\" Date();", "session 1 line 1: syntax\n"),
    ("set \"A\"Date();", "session 1 line 1: syntax\n"),
    ("set \"A\" Date(\"B\");", "session 1 line 1: syntax\n"),
    ("set \"A\" Boundary();", "session 1 line 1: syntax\n"),
    ("set \"A\" Phase(){};", "session 1 line 1: syntax\n"),
    (
        "set \"A\" R_Date(\"B\",2000,30);",
        "session 1 line 1: syntax\n",
    ),
    (
        "set \"A\" Zap();",
        "session 1 line 1: statement: command Zap\n",
    ),
    ("set \"A\" Date()", "session 1 line 1: statement: syntax\n"),
    (
        "set \"A\" Date(); Date();",
        "session 1 line 1: statement: syntax\n",
    ),
    (
        "set \"A\" C_Date(0);",
        "session 1 line 1: statement: argument\n",
    ),
    ("set \"A\" // note", "session 1 line 1: statement: syntax\n"),
    ("set \"A\" /*", "session 1 line 1: statement: token\n"),
    ("add \"s\"", "session 1 line 1: syntax\n"),
    ("add \"s\" // note", "session 1 line 1: statement: syntax\n"),
    ("add \"s\"Date();", "session 1 line 1: syntax\n"),
    ("add s Date();", "session 1 line 1: syntax\n"),
    ("add \"s\" x", "session 1 line 1: statement: command x\n"),
    (
        "add \"s\" Tau_Boundary(\"B\");",
        "session 1 line 1: statement: command Tau_Boundary\n",
    ),
    (
        "add \"s\" Plot(){};",
        "session 1 line 1: statement: place\n",
    ),
    (
        "add \"s\" Curve(\"C\");",
        "session 1 line 1: statement: place\n",
    ),
    (
        "add \"s\" Phase(){Boundary();};",
        "session 1 line 1: statement: place\n",
    ),
    ("add \"s\" #", "session 1 line 1: statement: token\n"),
    (
        "add \"s\" R_Date(1,2.0001);",
        "session 1 line 1: statement: token\n",
    ),
    (
        "add \"s\" Phase(){Phase(){Phase(){Phase(){Phase(){Phase(){Phase(){Phase(){Phase(){Phase(){Phase(){Phase(){Phase(){Phase(){Phase(){Phase(){Date();};};};};};};};};};};};};};};};};",
        "session 1 line 1: statement: limit depth\n",
    ),
    ("insert \"s\"", "session 1 line 1: syntax\n"),
    (
        "insert \"s\" Options(){};",
        "session 1 line 1: statement: place\n",
    ),
    (
        "insert \"s\" Date(\"=A\");",
        "session 1 line 1: statement: argument\n",
    ),
    (
        "insert \"s\" Date(\"A\";",
        "session 1 line 1: statement: argument\n",
    ),
    (
        "undo\ninsert \"s\" ;",
        "session 1 line 2: statement: syntax\n",
    ),
];

/// Years of grids.
static YEARS: [(&str, &str); 7] = [
    ("grid 60001 60000", "session 1 line 1: limit years\n"),
    ("grid 60000 60001", "session 1 line 1: limit years\n"),
    ("grid -1001 -1001", "session 1 line 1: limit years\n"),
    ("grid 5 -1001", "session 1 line 1: limit years\n"),
    (
        "grid 99999999999999999999999999999999999999999999 1",
        "session 1 line 1: limit years\n",
    ),
    (
        "grid -99999999999999999999999999999999999999999999 1",
        "session 1 line 1: limit years\n",
    ),
    ("undo\ngrid 70000 60000", "session 1 line 2: limit years\n"),
];

#[test]
fn first_words(rt: HostRuntime) -> Result<(), Fail> {
    for (text, want) in &WORDS {
        assert_eq!(rt;
            told(rt.alloc(), text.as_bytes())?.as_str(),
            *want,
            "{text:?}"
        );
    }
    Ok(())
}

#[test]
fn fields(rt: HostRuntime) -> Result<(), Fail> {
    for (text, want) in &FIELDS {
        assert_eq!(rt;
            told(rt.alloc(), text.as_bytes())?.as_str(),
            *want,
            "{text:?}"
        );
    }
    Ok(())
}

#[test]
fn statements(rt: HostRuntime) -> Result<(), Fail> {
    for (text, want) in &STATEMENTS {
        assert_eq!(rt;
            told(rt.alloc(), text.as_bytes())?.as_str(),
            *want,
            "{text:?}"
        );
    }
    Ok(())
}

#[test]
fn years(rt: HostRuntime) -> Result<(), Fail> {
    for (text, want) in &YEARS {
        assert_eq!(rt;
            told(rt.alloc(), text.as_bytes())?.as_str(),
            *want,
            "{text:?}"
        );
    }
    Ok(())
}

// a first word that is no text
#[test]
fn bytes_that_are_no_text(rt: HostRuntime) -> Result<(), Fail> {
    let told = told(rt.alloc(), b"undo\n\xff 1\n")?;
    assert_eq!(rt; told.as_str(), "session 1 line 2: syntax\n");
    Ok(())
}
