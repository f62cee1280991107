//! A site with each kind of node and of dating.
ghost use Rattle.std.specs.Prelude.{◌≡◌, IfOk};

use crate::tests::texts;
use cg_model::{Dating, Found, Members, ModelTree, Name, Node};
use cg_num::{Decimal, Year};
use std::alloc::Global;
use std::test::Fail;

const SITE: &str =
    "Sequence(\"s\"){Boundary(\"S\");Phase(\"p\"){Date(\"A\");C_Date(\"B\",-51);After(\"A\"){R_Date(\"R\",2340,30);};};Boundary(\"E\");};Before(){C_Date(\"N\",-61,5);};";

fn name(alloc: Global, text: &str) -> Result<Name, Fail>
    ensures { IfOk result (λ name. name ≡ text.now) }
{
    Ok(Name::new(alloc, text)?)
}

// the site with an event without a name, which no text says, and a curve
fn model(alloc: Global) -> Result<ModelTree, Fail> {
    let read = texts::model(alloc, SITE)?;
    let mut top = read.top().copy(alloc)?;
    top.push(Node::Leaf(name(alloc, "")?, Dating::Free))?;
    let curve = name(alloc, "IntCal20.14c")?;
    Ok(ModelTree::new(Some(curve), top)?)
}

static FOUND: [(&str, Found); 6] = [
    ("Z", Found::Nobody),
    ("s", Found::One(0)),
    ("p", Found::One(2)),
    ("R", Found::One(6)),
    ("E", Found::One(7)),
    // a leaf and a group
    ("A", Found::Many(2)),
];

fn found(alloc: Global, text: &str) -> Result<Found, Fail> {
    let name = name(alloc, text)?;
    if text.is_empty() {
        return Err("no name")?;
    }
    Ok(model(alloc)?.find(&name))
}

#[test]
fn finds(rt: HostRuntime) -> Result<(), Fail> {
    for (text, want) in &FOUND {
        assert!(rt; found(rt.alloc(), text)? == *want, "{text}");
    }
    Ok(())
}

// how many nodes and events there are
fn counts(alloc: Global) -> Result<(u32, u32), Fail> {
    let model = model(alloc)?;
    Ok((model.size(), model.events()))
}

#[test]
fn sizes(rt: HostRuntime) -> Result<(), Fail> {
    assert!(rt; counts(rt.alloc())? == (11, 7));
    Ok(())
}

static PLACES: [(&str, Option<u32>); 11] = [
    ("s", None),
    ("S", Some(0)),
    ("p", None),
    ("A", Some(1)),
    ("B", Some(2)),
    ("A", None),
    ("R", Some(3)),
    ("E", Some(4)),
    ("", None),
    ("N", Some(5)),
    ("", Some(6)),
];

// whether the node at a place has this name and number
fn is_at(alloc: Global, place: u32, text: &str, number: Option<u32>) -> Result<bool, Fail> {
    let model = model(alloc)?;
    Ok(
        place < model.size()
            && model.node(place).name().text() == text
            && model.event_number(place) == number,
    )
}

#[test]
fn places(rt: HostRuntime) -> Result<(), Fail> {
    let mut place = 0;
    for (text, number) in &PLACES {
        assert!(rt; is_at(rt.alloc(), place, text, *number)?, "place {place}");
        place = place.saturating_add(1);
    }
    Ok(())
}

// the dating of each event of the model
fn dating_at(event: u32) -> Dating {
    match event {
        2 => Dating::Exact(Year::within(2_000)),
        3 => Dating::Carbon(Decimal::within(2_340_000), Decimal::within(30_000)),
        5 => Dating::Normal(Year::within(2_010), Decimal::within(5_000)),
        _ => Dating::Free,
    }
}

fn copied(alloc: Global) -> Result<ModelTree, Fail> {
    Ok(model(alloc)?.copy(alloc)?)
}

// whether the copy of the model has the dating of this event
fn is_dated(alloc: Global, event: u32) -> Result<bool, Fail> {
    let model = copied(alloc)?;
    Ok(event < model.events() && *model.dating(event) == dating_at(event))
}

#[test]
fn datings(rt: HostRuntime) -> Result<(), Fail> {
    for event in 0..7 {
        assert!(rt; is_dated(rt.alloc(), event)?, "event {event}");
    }
    Ok(())
}

fn has_curve(alloc: Global, text: &str) -> Result<bool, Fail> {
    match copied(alloc)?.curve() {
        Some(curve) => Ok(curve.text() == text),
        None => Ok(false),
    }
}

#[test]
fn curves(rt: HostRuntime) -> Result<(), Fail> {
    assert!(rt; has_curve(rt.alloc(), "IntCal20.14c")?);
    Ok(())
}

fn top_of(alloc: Global) -> Result<Members, Fail> {
    Ok(model(alloc)?.top().copy(alloc)?)
}

// whether the name of a top statement, and of its copy, is this text
fn is_top(alloc: Global, place: usize, text: &str) -> Result<bool, Fail> {
    let top = top_of(alloc)?;
    if place >= top.len() || top.len() != 3 {
        return Ok(false);
    }
    let copy = top.get(place).copy(alloc)?;
    Ok(top.get(place).name().text() == text && copy.name().text() == text)
}

#[test]
fn tops(rt: HostRuntime) -> Result<(), Fail> {
    assert!(rt; is_top(rt.alloc(), 0, "s")?);
    assert!(rt; is_top(rt.alloc(), 2, "")?);
    Ok(())
}
