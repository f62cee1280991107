//! On which lines files name their curves.
use crate::shown::{line_of, said_of};
use std::test::Fail;

/// Models, and the line of the curve's name.
static MODELS: [(&str, Option<u32>); 20] = [
    ("", None),
    ("Date();", None),
    ("Date(\"Curve\");", None),
    ("// Curve(\"a\");", None),
    ("Options(){BCAD=Curve;};", None),
    ("Options(){BCAD=\"a\";};", None),
    ("Curve(\"IntCal20\");", Some(1)),
    ("Curve(\"\",\"IntCal20\");", Some(1)),
    ("\n\nCurve(\"IntCal20.14c\");\nDate();", Some(3)),
    ("\nCurve(\"IntCal20\",\n\"IntCal20.14c\");", Some(3)),
    ("Curve\n(\n\"a\"\n)\n;", Some(3)),
    ("Curve\n(\n\"a\"\n,\n\"b\"\n)\n;", Some(5)),
    ("Curve/* \n */(/* \n */\"a\"/* \n */,// b\n\"b\");", Some(5)),
    ("Options(){\nCurve=\"a\";\n};", Some(2)),
    ("Options(){Curve\n=\n\"a\";};", Some(3)),
    ("Options(){BCAD=Curve;\nCurve=\"a\";};", Some(2)),
    ("Options(){BCAD=Curve;};\nCurve(\"a\");", Some(2)),
    ("Date(\"Curve\");\nCurve(\"a\");", Some(2)),
    (
        "// Curve(\"a\");\n/* Curve=\"b\" */\nCurve(\"c\");",
        Some(3),
    ),
    ("Plot(){\nDate();\nCurve(\"a\");};", Some(3)),
];

#[test]
fn lines_of_models(rt: HostRuntime) -> Result<(), Fail> {
    for (text, want) in &MODELS {
        assert_eq!(rt; line_of(text)?, *want, "{text:?}");
        let said = said_of(rt.alloc(), text)?;
        assert_eq!(rt;
            said.as_str().starts_with("curve "),
            want.is_some(),
            "{text:?}"
        );
    }
    Ok(())
}

/// Texts that are no models, and the line of the first text that stands like a curve's name.
static OTHERS: [(&str, Option<u32>); 10] = [
    ("curve(\"a\");", None),
    ("Curve", None),
    ("Curve(", None),
    ("Curve=5;Curve(5,\"a\");", None),
    ("#\nCurve(\"a\");", None),
    ("Curve(\"a\"", Some(1)),
    ("Curve(\"a\",\n5);", Some(1)),
    ("Curve(\"a\",\n\"b\",\n\"c\");", Some(2)),
    ("Curve\nCurve(\n\"a\");", Some(3)),
    ("Curve(\"a\");\nCurve(\"b\");", Some(1)),
];

#[test]
fn lines_of_others(rt: HostRuntime) -> Result<(), Fail> {
    for (text, want) in &OTHERS {
        assert_eq!(rt; line_of(text)?, *want, "{text:?}");
    }
    Ok(())
}
