//! Statements that stand alone.
use crate::shown::{alone_of, fault_alone};
use std::test::Fail;

/// Their first faults.
static FAULTS: [(&str, u32, &str); 17] = [
    ("", 1, "syntax"),
    ("// a", 1, "syntax"),
    ("/* \n */", 2, "syntax"),
    (";", 1, "syntax"),
    ("Date();;", 1, "syntax"),
    ("Date();\nDate();", 2, "syntax"),
    ("Date();Zap();", 1, "syntax"),
    ("Date();#", 1, "token"),
    ("Date();\n}", 2, "syntax"),
    ("Phase(){};;", 1, "syntax"),
    ("Boundary();Boundary();", 1, "syntax"),
    ("Phase(){Boundary();};", 1, "place"),
    ("Curve(\"x\");", 1, "place"),
    ("Plot(){};", 1, "place"),
    ("Options(){};", 1, "place"),
    ("Zap();", 1, "command Zap"),
    ("Date(5);", 1, "argument"),
];

#[test]
fn faults_of_statements(rt: HostRuntime) -> Result<(), Fail> {
    for (text, line, cause) in &FAULTS {
        let fault = fault_alone(rt.alloc(), text)?;
        assert_eq!(rt; fault.0, *line, "{text:?}");
        assert_eq!(rt; fault.1.as_str(), *cause, "{text:?}");
    }
    Ok(())
}

/// Their nodes, and how many members these have.
static STATEMENTS: [(&str, &str); 6] = [
    ("Date(\"A\"); // end", "A free"),
    ("Boundary(\"b\");", "Boundary b"),
    ("Phase(){}", "Phase  of 0"),
    ("Phase(\"p\"){Date();} ;", "Phase p of 1"),
    ("\nR_Date(2340,30);", " aged 2340000 by 30000"),
    ("Sequence(){Sequence(){Boundary();};};", "Sequence  of 1"),
];

#[test]
fn what_statements_say(rt: HostRuntime) -> Result<(), Fail> {
    for (text, want) in &STATEMENTS {
        assert_eq!(rt; alone_of(rt.alloc(), text)?.as_str(), *want, "{text:?}");
    }
    Ok(())
}
