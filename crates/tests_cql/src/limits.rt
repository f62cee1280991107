//! Limits, each at the limit and one past it.
use crate::shown::{counted, fault_of, repeated};
use std::alloc::Global;
use std::test::Fail;

/// Three texts, each so many times, and how many events and nodes there are, or the line and the cause.
///
/// Names of 120 bytes and of 121, those of files of curves with their ending.
static NAMES: [(u32, &str, u32, &str, u32, &str, &str); 18] = [
    (1, "Date(\"", 120, "a", 1, "\");", "1 of 1"),
    (1, "Date(\"", 121, "a", 1, "\");", "1 argument"),
    (1, "Date(\"", 60, "é", 1, "\");", "1 of 1"),
    (1, "Date(\"", 61, "é", 1, "\");", "1 argument"),
    (1, "Plot(\n\"", 121, "a", 1, "\"){}", "2 argument"),
    (1, "C_Date(\"", 120, "a", 1, "\",5);", "1 of 1"),
    (1, "R_Date(\"", 121, "a", 1, "\",5,5);", "1 argument"),
    (1, "Curve(\"", 116, "a", 1, "\");", "0 of 0"),
    (1, "Curve(\n\"", 117, "a", 1, "\"\n);", "2 argument"),
    (1, "Curve(\n\"", 121, "a", 1, "\"\n);", "2 argument"),
    (1, "Curve(\"", 116, "a", 1, ".14C\");", "0 of 0"),
    (1, "Curve(\"", 117, "a", 1, ".14c\");", "1 argument"),
    (1, "Curve(\"", 120, "a", 1, "\",\"b\");", "0 of 0"),
    (1, "Curve(\"", 121, "a", 1, "\",\"b\");", "1 argument"),
    (1, "Curve(\"a\",\"", 116, "b", 1, "\");", "0 of 0"),
    (1, "Curve(\"a\",\n\"", 117, "b", 1, "\");", "2 argument"),
    (1, "Options(){Curve=\"", 116, "b", 1, "\";};", "0 of 0"),
    (1, "Options(){Curve=\"", 117, "b", 1, "\";};", "1 argument"),
];

/// Events, groups and depth.
static LIMITS: [(u32, &str, u32, &str, u32, &str, &str); 21] = [
    (16, "Phase(){", 0, "", 16, "}", "0 of 16"),
    (16, "Phase(){\n", 1, "Phase(){", 17, "}", "17 limit depth"),
    (15, "Phase(){", 1, "Date();", 15, "}", "1 of 16"),
    (16, "Phase(){", 1, "Date();", 16, "}", "1 limit depth"),
    (
        16,
        "Sequence(){",
        1,
        "Boundary();",
        16,
        "}",
        "1 limit depth",
    ),
    (1, "Plot(){", 16, "After(){", 17, "}", "0 of 16"),
    (1, "Plot(){", 17, "After(){", 18, "}", "1 limit depth"),
    (16, "Phase(){", 1, "Boundary();", 16, "}", "1 place"),
    (60, "Phase(){}", 0, "", 0, "", "0 of 60"),
    (60, "Phase(){}", 1, "\nBefore(){}", 0, "", "2 limit groups"),
    (100, "Date();", 0, "", 0, "", "100 of 100"),
    (100, "Date();\n", 1, "Date();", 0, "", "101 limit events"),
    (
        50,
        "Sequence(){Boundary();Date();}",
        1,
        "",
        0,
        "",
        "100 of 150",
    ),
    (
        50,
        "Sequence(){Boundary();Date();}",
        1,
        "Sequence(){",
        1,
        "Boundary();",
        "1 limit events",
    ),
    (
        99,
        "Date();",
        1,
        "C_Date(1);",
        1,
        "R_Date(1,1);",
        "1 limit events",
    ),
    (60, "Phase(){}", 100, "Date();", 0, "", "100 of 160"),
    (100, "Date();", 1, "Boundary();", 0, "", "1 place"),
    (100, "Date();", 1, "Zap();", 0, "", "1 command Zap"),
    (
        100,
        "Date();",
        16,
        "Phase(){",
        1,
        "Date();",
        "1 limit events",
    ),
    (
        44,
        "Phase(){}",
        16,
        "Phase(){",
        1,
        "After(){",
        "1 limit groups",
    ),
    (
        43,
        "Phase(){}",
        16,
        "Phase(){",
        1,
        "After(){",
        "1 limit depth",
    ),
];

fn joined(
    alloc: Global,
    first: (u32, &str),
    second: (u32, &str),
    third: (u32, &str),
) -> Result<String, Fail> {
    let mut text = repeated(alloc, first.1, first.0)?;
    text.push_str(repeated(alloc, second.1, second.0)?.as_str())?;
    text.push_str(repeated(alloc, third.1, third.0)?.as_str())?;
    Ok(text)
}

#[test]
fn names_of_120_bytes(rt: HostRuntime) -> Result<(), Fail> {
    for (first, front, second, middle, third, back, want) in &NAMES {
        let text = joined(
            rt.alloc(),
            (*first, front),
            (*second, middle),
            (*third, back),
        )?;
        assert_eq!(rt;
            counted(rt.alloc(), text.as_bytes())?.as_str(),
            *want,
            "{front} {second} {middle}"
        );
    }
    Ok(())
}

#[test]
fn limits_of_models(rt: HostRuntime) -> Result<(), Fail> {
    for (first, front, second, middle, third, back, want) in &LIMITS {
        let text = joined(
            rt.alloc(),
            (*first, front),
            (*second, middle),
            (*third, back),
        )?;
        assert_eq!(rt;
            counted(rt.alloc(), text.as_bytes())?.as_str(),
            *want,
            "{first} {front} {second} {middle}"
        );
    }
    Ok(())
}

#[test]
fn a_word_of_121_bytes_is_cut(rt: HostRuntime) -> Result<(), Fail> {
    let mut cause = String::from_str(rt.alloc(), "command ")?;
    cause.push_str(repeated(rt.alloc(), "A", 120)?.as_str())?;
    let word = joined(rt.alloc(), (120, "A"), (1, "B"), (1, "();"))?;
    assert_eq!(rt;
        fault_of(rt.alloc(), word.as_str())?.1.as_str(),
        cause.as_str()
    );
    let option = joined(rt.alloc(), (1, "Options(){"), (119, "A"), (1, "=5;};"))?;
    assert_eq!(rt; fault_of(rt.alloc(), option.as_str())?.1.len(), 126);
    Ok(())
}
