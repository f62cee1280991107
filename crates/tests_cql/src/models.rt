//! What files say.
use crate::shown::said_of;
use std::test::Fail;

/// The curve of a file, and its nodes in their order.
static FILES: [(&str, &str); 44] = [
    ("", ""),
    (" \t\r\n", ""),
    ("// a", ""),
    ("/**/", ""),
    ("/***/Date();/* \n } */", " free"),
    ("Date();", " free"),
    ("Date(\"\");", " free"),
    ("Date(\"A b é\");", "A b é free"),
    ("Date(\"A\");Date(\"A\");", "A free; A free"),
    ("Date ( \"A\" ) ;", "A free"),
    ("Sequence(){}", "Sequence  of 0"),
    ("Sequence(\"s\"){}Date();", "Sequence s of 0;  free"),
    ("Sequence(){}/* */;Date();", "Sequence  of 0;  free"),
    (
        "Sequence(\"s\"){Boundary(\"b\");Date(\"A\");Boundary();};",
        "Sequence s of 3; Boundary b; A free; Boundary ",
    ),
    (
        "Phase(){Sequence(\"s\"){Boundary();}Date();}",
        "Phase  of 2; Sequence s of 1; Boundary ;  free",
    ),
    (
        "After(\"a\"){C_Date(\"E\",-51,5);};Before(){Date(\"F\");};",
        "After a of 1; E 2000 by 5000; Before  of 1; F free",
    ),
    ("C_Date(-50);", " 1999"),
    ("C_Date(\"A\",-1);", "A 1950"),
    ("C_Date(1,0);", " 1949"),
    ("C_Date(\"A\",2950,1);", "A -1000 by 1000"),
    ("C_Date(-58051,10000);", " 60000 by 10000000"),
    ("C_Date(+0005.000,2.5);", " 1945 by 2500"),
    ("R_Date(2340,30);", " aged 2340000 by 30000"),
    ("R_Date(\"A\",-2000,1);", "A aged -2000000 by 1000"),
    ("R_Date(60000,10000);", " aged 60000000 by 10000000"),
    ("R_Date(0.001,05.50);", " aged 1 by 5500"),
    ("R_Date(0,1.05);", " aged 0 by 1050"),
    ("R_Date(\"A\",10.25,9999.999);", "A aged 10250 by 9999999"),
    ("Curve(\"IntCal20\");", "curve IntCal20.14c"),
    (
        "Curve(\"IntCal20\",\"IntCal20.14c\");",
        "curve IntCal20.14c",
    ),
    ("Curve(\"=a\");", "curve =a.14c"),
    ("Curve(\"\",\"a.14C\");", "curve a.14C"),
    ("Curve(\".14c\");", "curve .14c"),
    ("Options(){};", ""),
    ("Options(){}", ""),
    ("Options(){Cubic=FALSE;Resolution=1.0;};", ""),
    (
        "Options(){BCAD=TRUE;SD1=5;RawData=\"x\";kIterations=-0.5;};Date();",
        " free",
    ),
    ("Options(){Curve=\"=b\";};", "curve =b.14c"),
    ("Plot(\"p\"){}", ""),
    (
        "Plot(){Curve(\"a\");Date(\"A\");Options(){};};Date(\"B\");",
        "curve a.14c; A free; B free",
    ),
    ("Plot(){Date();};Plot(){Date();}", " free;  free"),
    (
        "Date(\"A\");// Date(\"B\");\nDate(\"C\");",
        "A free; C free",
    ),
    ("Date(\"/* a */\");", "/* a */ free"),
    ("Date(\"C:\\d\");", "C:\\d free"),
];

#[test]
fn what_files_say(rt: HostRuntime) -> Result<(), Fail> {
    for (text, want) in &FILES {
        assert_eq!(rt; said_of(rt.alloc(), text)?.as_str(), *want, "{text:?}");
    }
    Ok(())
}
