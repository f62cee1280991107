//! The files of a request, by their kinds and in their order.
use crate::told::{read, shelf_of, told};
use cg_files::Inputs;
use cg_io::Shelf;
use cg_model::Name;
use cg_versions::Versions;
use std::alloc::Global;
use std::test::Fail;

/// Two files of each kind.
static FILES: [(&str, &str); 6] = [
    ("c1", "2000,2010,10\n1990,2000,10\n"),
    ("c2", "# remark\n5,1,1\n0,0,1\n"),
    ("m1", "Sequence(\"s\"){Date(\"A\");Date(\"B\");};\n"),
    (
        "m2",
        "// remark\nPhase(\"p\"){Date(\"A\");Date(\"B\");Date(\"C\");}",
    ),
    ("s1", "undo\n\nopen main\nundo\n"),
    ("s2", "# remark\nprint \"A\"\n"),
];

const GOOD: &str = "alone --curves one=c1,two=c2 --models main=m1,other=m2 --sessions s1,s2";

fn inputs_of(alloc: Global, line: &str) -> Result<Inputs, Fail> {
    let mut shelf = shelf_of(alloc, FILES.as_slice())?;
    match read(alloc, line, &mut shelf)? {
        Ok(inputs) => Ok(inputs),
        Err(_) => Err("a fault".into()),
    }
}

#[test]
fn curves_and_scripts(rt: HostRuntime) -> Result<(), Fail> {
    let inputs = inputs_of(rt.alloc(), GOOD)?;
    assert_eq!(rt; inputs.curves.count(), 2);
    assert_eq!(rt; inputs.curves.find(b"one"), Some(1));
    assert_eq!(rt; inputs.curves.find(b"TWO"), Some(2));
    assert_eq!(rt; inputs.scripts.len(), 2);
    Ok(())
}

fn versions_of(alloc: Global, line: &str) -> Result<Versions, Fail> {
    let inputs = inputs_of(alloc, line)?;
    Ok(Versions::new(alloc, inputs.models)?)
}

/// How many events the model of this name has.
fn events_of(alloc: Global, versions: &Versions, name: &str) -> Result<Option<u32>, Fail> {
    match versions.head_of(&Name::new(alloc, name)?)? {
        Some((_, model)) => Ok(Some(model.events())),
        None => Ok(None),
    }
}

#[test]
fn models(rt: HostRuntime) -> Result<(), Fail> {
    let versions = versions_of(rt.alloc(), GOOD)?;
    assert_eq!(rt; versions.count(), 2);
    assert_eq!(rt; events_of(rt.alloc(), &versions, "main")?, Some(2));
    assert_eq!(rt; events_of(rt.alloc(), &versions, "other")?, Some(3));
    Ok(())
}

/// The numbers of the reads, and what is told where one fails.
static READS: [(u64, &str); 6] = [
    (1, "read fault: curve 1\n"),
    (2, "read fault: curve 2\n"),
    (3, "read fault: model 1\n"),
    (4, "read fault: model 2\n"),
    (5, "read fault: session 1\n"),
    (6, "read fault: session 2\n"),
];

#[test]
fn failed_reads(rt: HostRuntime) -> Result<(), Fail> {
    for (number, want) in &READS {
        let mut shelf = shelf_of(rt.alloc(), FILES.as_slice())?;
        shelf.fail_on(*number)?;
        let told = told(rt.alloc(), GOOD, &mut shelf)?;
        assert_eq!(rt; told.as_str(), *want);
        assert_eq!(rt; shelf.faults(), 1);
    }
    Ok(())
}
