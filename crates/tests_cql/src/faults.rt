//! The first faults of files outside the parentheses: their lines and causes.
use crate::shown::fault_of;
use std::test::Fail;

/// What is no token.
static TOKENS: [(&str, u32, &str); 35] = [
    ("#", 1, "token"),
    ("Date();\n#", 2, "token"),
    ("/* a", 1, "token"),
    ("Date();\n/* \n", 2, "token"),
    ("/*/", 1, "token"),
    ("/*/ Date();", 1, "token"),
    ("/**", 1, "token"),
    ("/", 1, "token"),
    ("Date();/ /", 1, "token"),
    ("\"a", 1, "token"),
    ("Date(\"a", 1, "token"),
    ("Date(\n\"a", 2, "token"),
    ("Date(\"a\nb\");", 1, "token"),
    ("Date(\"a\tb\");", 1, "token"),
    ("Date(\"\u{7f}\");", 1, "token"),
    ("+", 1, "token"),
    ("R_Date(-", 1, "token"),
    ("R_Date(1.", 1, "token"),
    ("R_Date(1,1..0);", 1, "token"),
    ("R_Date(1,\n2.0001);", 2, "token"),
    ("R_Date(1000000000000,5);", 1, "token"),
    ("C_Date(--5);", 1, "token"),
    ("C_Date(.5);", 1, "token"),
    ("Date()\u{c};", 1, "token"),
    ("Date[", 1, "token"),
    ("é", 1, "token"),
    ("Date(é", 1, "token"),
    ("Sequence(){} #", 1, "token"),
    ("Sequence(){}\n#", 2, "token"),
    ("Options(){#", 1, "token"),
    ("Options(){Cubic#", 1, "token"),
    ("Options(){Cubic=#", 1, "token"),
    ("Options(){Cubic=FALSE#", 1, "token"),
    ("Date() 'a'", 1, "token"),
    ("Curve(\"a\n\");", 1, "token"),
];

#[test]
fn what_is_no_token(rt: HostRuntime) -> Result<(), Fail> {
    for (text, line, cause) in &TOKENS {
        let fault = fault_of(rt.alloc(), text)?;
        assert_eq!(rt; fault.0, *line, "{text:?}");
        assert_eq!(rt; fault.1.as_str(), *cause, "{text:?}");
    }
    Ok(())
}

/// Tokens that do not fit outside the parentheses, and ends inside them.
static SYNTAX: [(&str, u32, &str); 44] = [
    ("Date", 1, "syntax"),
    ("Date(", 1, "syntax"),
    ("Date(\"A\"", 1, "syntax"),
    ("C_Date(5,", 1, "syntax"),
    ("C_Date(5,\n", 2, "syntax"),
    ("Curve(\"\"", 1, "syntax"),
    ("Date()", 1, "syntax"),
    ("Date()\n", 2, "syntax"),
    ("Date();;", 1, "syntax"),
    (";", 1, "syntax"),
    ("}", 1, "syntax"),
    ("Sequence(){}}", 1, "syntax"),
    ("Sequence(){};;", 1, "syntax"),
    ("Sequence(){;};", 1, "syntax"),
    ("Sequence(){Date()};", 1, "syntax"),
    ("Date(){};", 1, "syntax"),
    ("Sequence();", 1, "syntax"),
    ("Plot();", 1, "syntax"),
    ("Options();", 1, "syntax"),
    ("Curve(\"x\"){", 1, "syntax"),
    ("Sequence(){", 1, "syntax"),
    ("Sequence(){Date();", 1, "syntax"),
    ("Plot(){", 1, "syntax"),
    ("Options(){", 1, "syntax"),
    ("Options(){Cubic", 1, "syntax"),
    ("Options(){Cubic}", 1, "syntax"),
    ("Options(){Cubic FALSE;};", 1, "syntax"),
    ("Options(){Cubic=;};", 1, "syntax"),
    ("Options(){Cubic=FALSE}", 1, "syntax"),
    ("Options(){Cubic=FALSE;;};", 1, "syntax"),
    ("Options(){;};", 1, "syntax"),
    ("Options(){5=5;};", 1, "syntax"),
    ("5", 1, "syntax"),
    ("\"a\"", 1, "syntax"),
    ("(", 1, "syntax"),
    ("Date Date", 1, "syntax"),
    ("Date \"a\";", 1, "syntax"),
    ("Date();\n\n}", 3, "syntax"),
    ("Date();\r\n}", 2, "syntax"),
    ("Date();\r}", 1, "syntax"),
    ("// }\n}", 2, "syntax"),
    ("/* \n\n */}", 3, "syntax"),
    ("Plot(){}};", 1, "syntax"),
    ("Date(\"\"\n", 2, "syntax"),
];

#[test]
fn tokens_that_do_not_fit(rt: HostRuntime) -> Result<(), Fail> {
    for (text, line, cause) in &SYNTAX {
        let fault = fault_of(rt.alloc(), text)?;
        assert_eq!(rt; fault.0, *line, "{text:?}");
        assert_eq!(rt; fault.1.as_str(), *cause, "{text:?}");
    }
    Ok(())
}

/// Words that are no commands.
static COMMANDS: [(&str, u32, &str); 11] = [
    ("Tau_Boundary(\"x\");", 1, "command Tau_Boundary"),
    ("date();", 1, "command date"),
    ("Date1();", 1, "command Date1"),
    ("_", 1, "command _"),
    ("Sequence(){\nGap(5);};", 2, "command Gap"),
    ("D_Sequence(){};", 1, "command D_Sequence"),
    ("First();", 1, "command First"),
    ("R_Combine(){};", 1, "command R_Combine"),
    ("FALSE", 1, "command FALSE"),
    ("Cubic=FALSE;", 1, "command Cubic"),
    ("Plot(){Zap();};", 1, "command Zap"),
];

#[test]
fn words_that_are_no_commands(rt: HostRuntime) -> Result<(), Fail> {
    for (text, line, cause) in &COMMANDS {
        let fault = fault_of(rt.alloc(), text)?;
        assert_eq!(rt; fault.0, *line, "{text:?}");
        assert_eq!(rt; fault.1.as_str(), *cause, "{text:?}");
    }
    Ok(())
}

/// Words that are no options, and values that options do not accept.
static OPTIONS: [(&str, u32, &str); 16] = [
    ("Options(){Foo=2;};", 1, "option Foo"),
    ("Options(){Foo", 1, "option Foo"),
    ("Options(){cubic=FALSE;};", 1, "option cubic"),
    ("Options(){Date();};", 1, "option Date"),
    ("Options(){Cubic=TRUE;};", 1, "option Cubic"),
    ("Options(){Cubic=\n0;};", 2, "option Cubic"),
    ("Options(){UseF14C=false;};", 1, "option UseF14C"),
    ("Options(){Intercept=\"FALSE\";};", 1, "option Intercept"),
    (
        "Options(){UniformSpanPrior=1;};",
        1,
        "option UniformSpanPrior",
    ),
    ("Options(){Resolution=2;};", 1, "option Resolution"),
    ("Options(){Resolution=1.001;};", 1, "option Resolution"),
    ("Options(){Resolution=-1;};", 1, "option Resolution"),
    ("Options(){Resolution=One;};", 1, "option Resolution"),
    ("Options(){Resolution=\"1\";};", 1, "option Resolution"),
    ("Options(){Curve=x;};", 1, "option Curve"),
    ("Options(){Curve=5;};", 1, "option Curve"),
];

#[test]
fn options_and_their_values(rt: HostRuntime) -> Result<(), Fail> {
    for (text, line, cause) in &OPTIONS {
        let fault = fault_of(rt.alloc(), text)?;
        assert_eq!(rt; fault.0, *line, "{text:?}");
        assert_eq!(rt; fault.1.as_str(), *cause, "{text:?}");
    }
    Ok(())
}

/// Commands out of their places. A place comes before a limit.
static PLACES: [(&str, u32, &str); 12] = [
    ("Boundary();", 1, "place"),
    ("Phase(){\nBoundary();};", 2, "place"),
    ("After(){Boundary();};", 1, "place"),
    ("Before(){Boundary();};", 1, "place"),
    ("Plot(){Boundary();};", 1, "place"),
    ("Sequence(){Phase(){Boundary();};};", 1, "place"),
    ("Phase(){Curve(\"x\");};", 1, "place"),
    ("Sequence(){Options(){};};", 1, "place"),
    ("Phase(){Plot(){};};", 1, "place"),
    ("Plot(){Plot(){};};", 1, "place"),
    ("Plot(){Sequence(){Curve(\"x\");};};", 1, "place"),
    ("Curve(\"a\");Phase(){Curve(\"a\");};", 1, "place"),
];

#[test]
fn commands_out_of_their_places(rt: HostRuntime) -> Result<(), Fail> {
    for (text, line, cause) in &PLACES {
        let fault = fault_of(rt.alloc(), text)?;
        assert_eq!(rt; fault.0, *line, "{text:?}");
        assert_eq!(rt; fault.1.as_str(), *cause, "{text:?}");
    }
    Ok(())
}
