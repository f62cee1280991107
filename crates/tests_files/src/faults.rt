//! The first faults of files, as the lines of their statuses.
use crate::shown::repeated;
use crate::told::{shelf_of, told};
use cg_io::MemShelf;
use std::alloc::Global;
use std::test::Fail;

/// What stands on the shelf: two files of each kind without a fault, models that name curves, and files with a fault.
static FILES: [(&str, &str); 21] = [
    ("c1", "2000,2010,10\n1990,2000,10\n"),
    ("c2", "# remark\n5,1,1\n0,0,1\n"),
    ("m1", "Sequence(\"s\"){Date(\"A\");Date(\"B\");};\n"),
    ("m2", "Phase(\"p\"){Date(\"A\");Date(\"B\");Date(\"C\");};"),
    ("s1", "undo\nopen main\nundo\n"),
    ("s2", "print \"A\"\n"),
    ("named", "Curve(\"OnE\");\nDate(\"A\");"),
    ("option", "Options(){\nCurve=\"two.14c\";\n};"),
    ("row", "2000,1,1\nx\n"),
    ("range", "2000,70001,1\n"),
    ("order", "# remark\n2000,1,1\n2000,1,1\n"),
    ("gap", "3000,1,1\n1999,1,1\n"),
    ("few", "2000,1,1\n"),
    ("open", "Date(\"A\")\n"),
    ("place", "Date(\"A\");\n\nBoundary(\"b\");"),
    ("word", "// remark\nTau_Boundary(\"b\");"),
    ("second", "Curve(\"x\");Curve(\"y\");"),
    ("blank", "undo\n\nundo 1\n"),
    ("redo", "redo\n"),
    ("late", "# remark\ngrid 60001 1\n"),
    ("set", "undo\nset \"A\" C_Date(0);\n"),
];

/// Words, and what is told of their files.
static FAULTS: [(&str, &str); 35] = [
    // All are accepted.
    (
        "alone --curves one=c1,two=c2 --models main=m1,other=m2 --sessions s1,s2",
        "",
    ),
    // Files that aren't on the shelf.
    (
        "alone --curves one=-,two=c2 --models main=m1 --sessions s1",
        "read fault: curve 1\n",
    ),
    (
        "alone --curves one=c1,two=- --models main=m1 --sessions s1",
        "read fault: curve 2\n",
    ),
    (
        "alone --models main=-,other=m2 --sessions s1",
        "read fault: model 1\n",
    ),
    (
        "alone --models main=m1,other=- --sessions s1",
        "read fault: model 2\n",
    ),
    (
        "alone --models main=m1 --sessions -,s2",
        "read fault: session 1\n",
    ),
    (
        "alone --models main=m1 --sessions s1,-",
        "read fault: session 2\n",
    ),
    // A curve's fault is told at its line, and line 0 is the file as a whole.
    (
        "alone --curves one=row --models main=m1 --sessions s1",
        "curve 1 line 2: bad row\n",
    ),
    (
        "alone --curves one=c1,two=range --models main=m1 --sessions s1",
        "curve 2 line 1: out of range\n",
    ),
    (
        "alone --curves one=c1,two=order --models main=m1 --sessions s1",
        "curve 2 line 3: order\n",
    ),
    (
        "alone --curves one=gap --models main=m1 --sessions s1",
        "curve 1 line 2: gap\n",
    ),
    (
        "alone --curves one=few --models main=m1 --sessions s1",
        "curve 1 line 0: too few\n",
    ),
    // So are the faults of models and scripts.
    (
        "alone --models main=open --sessions s1",
        "model 1 line 2: syntax\n",
    ),
    (
        "alone --models main=m1,other=place --sessions s1",
        "model 2 line 3: place\n",
    ),
    (
        "alone --models main=word --sessions s1",
        "model 1 line 2: command Tau_Boundary\n",
    ),
    (
        "alone --models main=second --sessions s1",
        "model 1 line 1: limit curves\n",
    ),
    (
        "alone --models main=m1 --sessions blank",
        "session 1 line 3: syntax\n",
    ),
    (
        "alone --models main=m1 --sessions s1,redo",
        "session 2 line 1: unknown redo\n",
    ),
    (
        "alone --models main=m1 --sessions late",
        "session 1 line 2: limit years\n",
    ),
    (
        "alone --models main=m1 --sessions set",
        "session 1 line 2: statement: argument\n",
    ),
    // A curve that a model names is one of those given, whatever the case of its letters.
    (
        "alone --curves one.14c=c1 --models main=named --sessions s1",
        "",
    ),
    (
        "alone --curves c=c1,ONE.14C=c2 --models main=named --sessions s1",
        "",
    ),
    (
        "alone --curves c=c1,tWo.14c=c2 --models main=option --sessions s1",
        "",
    ),
    (
        "alone --curves one=c1 --models main=named --sessions s1",
        "model 1 line 1: unknown curve\n",
    ),
    (
        "alone --models main=named --sessions s1",
        "model 1 line 1: unknown curve\n",
    ),
    (
        "alone --curves one.14c=c1 --models main=named,other=option --sessions s1",
        "model 2 line 2: unknown curve\n",
    ),
    // Of several faults the first is told, curves before models before sessions, wherever the options stand.
    (
        "alone --sessions - --models main=open --curves one=c1,two=few",
        "curve 2 line 0: too few\n",
    ),
    (
        "alone --curves one=row,two=- --models main=m1 --sessions s1",
        "curve 1 line 2: bad row\n",
    ),
    (
        "alone --sessions - --models main=m1,other=open",
        "model 2 line 2: syntax\n",
    ),
    (
        "alone --sessions -,redo --models main=m1",
        "read fault: session 1\n",
    ),
    (
        "alone --sessions redo --models main=open --curves one=c1,two=-",
        "read fault: curve 2\n",
    ),
    (
        "alone --models main=named,other=open --sessions s1",
        "model 1 line 1: unknown curve\n",
    ),
    (
        "alone --models main=place,other=named --sessions s1",
        "model 1 line 3: place\n",
    ),
    (
        "alone --models main=option --sessions redo",
        "model 1 line 2: unknown curve\n",
    ),
    (
        "alone --models main=m1 --sessions late,redo",
        "session 1 line 2: limit years\n",
    ),
];

#[test]
fn first_faults(rt: HostRuntime) -> Result<(), Fail> {
    let mut shelf = shelf_of(rt.alloc(), FILES.as_slice())?;
    for (line, want) in &FAULTS {
        let told = told(rt.alloc(), line, &mut shelf)?;
        assert_eq!(rt; told.as_str(), *want, "{line}");
    }
    Ok(())
}

const REMARK: &str = "###############################################################\n";

/// Words that read a file of 4,194,304 bytes of remarks and these more, and what is told. In a model it is no token.
static SIZES: [(&str, &str, &str); 6] = [
    (
        "alone --curves one=long --models main=m1 --sessions s1",
        "",
        "curve 1 line 0: too few\n",
    ),
    (
        "alone --curves one=long --models main=m1 --sessions s1",
        "#",
        "curve 1 line 0: too long\n",
    ),
    (
        "alone --models main=long --sessions s1",
        "",
        "model 1 line 1: token\n",
    ),
    (
        "alone --models main=long --sessions s1",
        "#",
        "model 1 line 0: too long\n",
    ),
    ("alone --models main=m1 --sessions long", "", ""),
    (
        "alone --models main=m1 --sessions long",
        "#",
        "session 1 line 0: too long\n",
    ),
];

fn told_of_long(
    alloc: Global,
    line: &str,
    text: &str,
    shelf: &mut MemShelf,
) -> Result<String, Fail> {
    shelf.put("long", text.as_bytes())?;
    told(alloc, line, shelf)
}

#[test]
fn long_files(rt: HostRuntime) -> Result<(), Fail> {
    let mut shelf = shelf_of(rt.alloc(), FILES.as_slice())?;
    let whole = repeated(rt.alloc(), REMARK, 65_536)?;
    for (line, more, want) in &SIZES {
        let long = format!(in rt.alloc(); "{whole}{more}")?;
        let told = told_of_long(rt.alloc(), line, long.as_str(), &mut shelf)?;
        assert_eq!(rt; told.as_str(), *want, "{line} {more}");
    }
    Ok(())
}
