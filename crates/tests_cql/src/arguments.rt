//! The first faults of files inside the parentheses, and of curves: their lines and causes.
use crate::shown::fault_of;
use std::test::Fail;

/// Arguments that do not fit.
static ARGUMENTS: [(&str, u32, &str); 45] = [
    ("Date(5);", 1, "argument"),
    ("Date(,);", 1, "argument"),
    ("Date(\"a\",\"b\");", 1, "argument"),
    ("Date(a);", 1, "argument"),
    ("Date(;", 1, "argument"),
    ("Date({", 1, "argument"),
    ("Date(());", 1, "argument"),
    ("Date(=);", 1, "argument"),
    ("Date(\"=a\");", 1, "argument"),
    ("Date(\"a\"\"b\");", 1, "argument"),
    ("Options(5){};", 1, "argument"),
    ("Options(\"a\"){};", 1, "argument"),
    ("Plot(5){};", 1, "argument"),
    ("Plot(\"=a\"){};", 1, "argument"),
    ("Phase(5){};", 1, "argument"),
    ("Sequence(\"a\",){};", 1, "argument"),
    ("C_Date();", 1, "argument"),
    ("C_Date(\"a\");", 1, "argument"),
    ("C_Date(\"a\",);", 1, "argument"),
    ("C_Date(\"a\"\n5);", 2, "argument"),
    ("C_Date(\"=a\",5);", 1, "argument"),
    ("C_Date(0);", 1, "argument"),
    ("C_Date(-0);", 1, "argument"),
    ("C_Date(0.5);", 1, "argument"),
    ("C_Date(-58052);", 1, "argument"),
    ("C_Date(2951);", 1, "argument"),
    ("C_Date(4294967297);", 1, "argument"),
    ("C_Date(1_000);", 1, "argument"),
    ("C_Date(5,);", 1, "argument"),
    ("C_Date(5,0.5);", 1, "argument"),
    ("C_Date(5,10000.001);", 1, "argument"),
    ("C_Date(5,-1);", 1, "argument"),
    ("C_Date(5,\"a\");", 1, "argument"),
    ("C_Date(5,5,5);", 1, "argument"),
    ("R_Date();", 1, "argument"),
    ("R_Date(\"a\");", 1, "argument"),
    ("R_Date(5);", 1, "argument"),
    ("R_Date(\"a\",5);", 1, "argument"),
    ("R_Date(-2000.001,5);", 1, "argument"),
    ("R_Date(60000.001,5);", 1, "argument"),
    ("R_Date(1,0);", 1, "argument"),
    ("R_Date(1,\n0.5);", 2, "argument"),
    ("R_Date(1,10000.001);", 1, "argument"),
    ("R_Date(1\n,\n5\n,5);", 4, "argument"),
    ("R_Date(\"=a\",1,5);", 1, "argument"),
];

#[test]
fn arguments_that_do_not_fit(rt: HostRuntime) -> Result<(), Fail> {
    for (text, line, cause) in &ARGUMENTS {
        let fault = fault_of(rt.alloc(), text)?;
        assert_eq!(rt; fault.0, *line, "{text:?}");
        assert_eq!(rt; fault.1.as_str(), *cause, "{text:?}");
    }
    Ok(())
}

/// Names of curves, and second curves. A sole text that names no file is told where it stands.
static CURVES: [(&str, u32, &str); 14] = [
    ("Curve();", 1, "argument"),
    ("Curve(5);", 1, "argument"),
    ("Curve(\n\"\"\n);", 2, "argument"),
    ("Curve(\"a\",);", 1, "argument"),
    ("Curve(\"a\",\"\");", 1, "argument"),
    ("Curve(\"a\",\"b\",\"c\");", 1, "argument"),
    ("Curve(\"=a\"\n,\"b\");", 2, "argument"),
    ("Curve(\"a\",5);", 1, "argument"),
    ("Options(){Curve=\"\";};", 1, "argument"),
    ("Curve(\"a\");\nCurve(\"a\");", 2, "limit curves"),
    ("Curve(\"a\");Plot(){Curve(\"b\");};", 1, "limit curves"),
    ("Options(){Curve=\"a\";Curve=\"b\";};", 1, "limit curves"),
    ("Curve(\"a\");Options(){\nCurve=\"a\";};", 2, "limit curves"),
    ("Options(){Curve=\"a\";};Curve(\"b\");", 1, "limit curves"),
];

#[test]
fn curves_that_do_not_fit(rt: HostRuntime) -> Result<(), Fail> {
    for (text, line, cause) in &CURVES {
        let fault = fault_of(rt.alloc(), text)?;
        assert_eq!(rt; fault.0, *line, "{text:?}");
        assert_eq!(rt; fault.1.as_str(), *cause, "{text:?}");
    }
    Ok(())
}
