//! Versions of two models.
ghost use Rattle.std.specs.Prelude.{◌≡◌, All, IfOk, codes, length};

use crate::tests::texts::{change, model, name};
use cg_edit::EditFault;
use cg_versions::{CommitFault, StartModels, TakeFault, Versions};
use std::alloc::Global;
use std::test::Fail;

const TWO: &str = "Phase(\"p\"){Date(\"x\");Date(\"x\");};";

const FIVE: &str = "Phase(\"p\"){Date(\"x\");Date(\"x\");Date(\"x\");Date(\"x\");Date(\"x\");};";

/// The model `old` of two events.
fn one_model(alloc: Global) -> Result<StartModels, Fail>
    ensures count { IfOk result (λ models. length models ≡ 1) }
    ensures names { IfOk result (λ models. All (λ model. model.name ≡ codes "old") models) }
{
    let tree = model(alloc, TWO)?;
    let mut models = StartModels::new(alloc);
    models.push(name(alloc, "old")?, tree)?;
    Ok(models)
}

/// That, and the model `new` of five.
fn two_models(alloc: Global) -> Result<Versions, Fail> {
    let mut models = one_model(alloc)?;
    models.push(name(alloc, "new")?, model(alloc, FIVE)?)?;
    Ok(Versions::new(alloc, models)?)
}

/// The number of the version that a change of another makes, and how many events it has.
fn change_of(
    alloc: Global,
    versions: &mut Versions,
    number: u32,
    line: &str,
) -> Result<Result<(u32, u32), EditFault>, Fail> {
    let edit = change(alloc, line)?;
    if number >= versions.count() {
        return Err("no such version".into());
    }
    let made = versions.change(alloc, number, &edit);
    Ok(made.map(|(number, tree)| (number, tree.events())))
}

fn make_third(alloc: Global, versions: &mut Versions) -> Result<(), Fail> {
    match change_of(alloc, versions, 1, "add \"p\" Date(\"N\");")? {
        Ok(_) => Ok(()),
        Err(_) => Err("no third version".into()),
    }
}

/// Two models, and version 2, which is made from version 1.
fn three_versions(alloc: Global) -> Result<Versions, Fail> {
    let mut versions = two_models(alloc)?;
    make_third(alloc, &mut versions)?;
    Ok(versions)
}

static HEADS: [(&str, Option<(u32, u32)>); 4] = [
    ("old", Some((0, 2))),
    ("new", Some((1, 5))),
    ("p", None),
    ("", None),
];

#[test]
fn heads(rt: HostRuntime) -> Result<(), Fail> {
    let versions = three_versions(rt.alloc())?;
    for (model, want) in &HEADS {
        let head = versions.head_of(&name(rt.alloc(), model)?)?;
        let head = head.map(|(number, tree)| (number, tree.events()));
        assert_eq!(rt; head, *want, "{model}");
    }
    Ok(())
}

static TAKES: [(u32, Result<u32, TakeFault>); 4] = [
    (0, Ok(2)),
    (1, Ok(5)),
    (2, Ok(6)),
    (3, Err(TakeFault::NoVersion(3))),
];

#[test]
fn takes(rt: HostRuntime) -> Result<(), Fail> {
    let versions = three_versions(rt.alloc())?;
    assert_eq!(rt; versions.count(), 3);
    for (number, want) in &TAKES {
        let taken = versions.take(*number).map(|tree| tree.events());
        assert_eq!(rt; taken, *want, "version {number}");
    }
    Ok(())
}

static PARENTS: [(u32, Option<(u32, u32)>); 3] = [(0, None), (1, None), (2, Some((1, 5)))];

#[test]
fn parents(rt: HostRuntime) -> Result<(), Fail> {
    let versions = three_versions(rt.alloc())?;
    for (number, want) in &PARENTS {
        assert!(rt; *number < versions.count());
        let parent = versions.back(*number)?;
        let parent = parent.map(|(number, tree)| (number, tree.events()));
        assert_eq!(rt; parent, *want, "version {number}");
    }
    Ok(())
}

static CHANGES: [(&str, Result<(u32, u32), EditFault>, u32); 3] = [
    ("add \"p\" Date(\"N\");", Ok((2, 3)), 3),
    ("add \"p\" Date(\"N\");", Ok((3, 3)), 4),
    ("add \"q\" Date(\"N\");", Err(EditFault::NoName), 4),
];

/// All changes are of version 0, which stays as it was. The refused one makes no version.
#[test]
fn changes(rt: HostRuntime) -> Result<(), Fail> {
    let mut versions = two_models(rt.alloc())?;
    for (line, want, count) in &CHANGES {
        let made = change_of(rt.alloc(), &mut versions, 0, line)?;
        assert_eq!(rt; made, *want, "{line}");
        assert_eq!(rt; versions.count(), *count, "{line}");
        assert_eq!(rt; versions.take(0)?.events(), 2, "{line}");
    }
    Ok(())
}

static COMMITS: [(&str, Option<u32>, Result<(), CommitFault>, u32); 6] = [
    ("new", None, Err(CommitFault::Moved(1)), 5),
    ("new", Some(0), Err(CommitFault::Moved(1)), 5),
    ("new", Some(1), Ok(()), 6),
    ("new", Some(1), Err(CommitFault::Moved(2)), 6),
    ("p", Some(1), Err(CommitFault::NoModel), 6),
    ("p", None, Err(CommitFault::NoModel), 6),
];

/// The version that a name stands for, and how many events it has.
fn events_at(alloc: Global, versions: &Versions, model: &str) -> Result<Option<(u32, u32)>, Fail> {
    let head = versions.head_of(&name(alloc, model)?)?;
    Ok(head.map(|(number, tree)| (number, tree.events())))
}

/// One after another: the head of `new` is version 1 until the third.
#[test]
fn commits(rt: HostRuntime) -> Result<(), Fail> {
    let mut versions = three_versions(rt.alloc())?;
    for (model, base, want, events) in &COMMITS {
        assert_eq!(rt; versions.count(), 3);
        let committed = versions.commit(&name(rt.alloc(), model)?, *base, 2);
        assert_eq!(rt; committed, *want, "{model} at {base:?}");
        let head = events_at(rt.alloc(), &versions, "new")?;
        assert_eq!(rt;
            head.map(|head| head.1),
            Some(*events),
            "{model} at {base:?}"
        );
        let other = events_at(rt.alloc(), &versions, "old")?;
        assert_eq!(rt; other, Some((0, 2)), "{model} at {base:?}");
    }
    Ok(())
}
