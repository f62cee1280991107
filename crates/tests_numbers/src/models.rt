ghost use Rattle.std.specs.Prelude.{◌≡◌, ◌<◌};

mod cases;
mod contexts;
mod pinned;
mod scene;

use cases::{Case, GROUPS_IN_SPANS, ONE_SIDED_GROUPS, ORDER, SEVERAL_SPANS, SPANS};
use cg_marginal::Marginal;
use cg_table::Steps;
use contexts::{CONTEXTS, Context};
use pinned::pinned_marginal;
use scene::{marginal, read_scene};
use std::alloc::Global;
use std::marker::Brand;
use std::process::Abort;
use std::sync::ledger::{Blank, Ledger};
use std::test::Fail;

// The parts in parts per million: each is between whole numbers, or is one.
fn assert_parts(rt: &impl Abort, marginal: &Marginal, parts: &[u32], whole: u32, name: &str) {
    assert!(rt; marginal.len() == parts.len(), "{name}");
    for (cell, part) in parts.iter().enumerate() {
        let millionths = 1_000_000 * *part as u64;
        assert!(rt; whole > 0);
        let lower = millionths / whole as u64;
        let upper = millionths.div_ceil(whole as u64);
        let pair = marginal.pair(cell);
        assert_eq!(rt;
            (pair.0 as u64, pair.1 as u64),
            (lower, upper),
            "{name}, cell {cell}"
        );
    }
}

#[test]
fn order(rt: HostRuntime) -> Result<(), Fail> {
    assert_cases::<Brand, _>(&rt, rt.alloc(), Blank::new(1), &ORDER)
}

#[test]
fn one_sided_groups(rt: HostRuntime) -> Result<(), Fail> {
    assert_cases::<Brand, _>(&rt, rt.alloc(), Blank::new(1), &ONE_SIDED_GROUPS)
}

#[test]
fn spans(rt: HostRuntime) -> Result<(), Fail> {
    assert_cases::<Brand, _>(&rt, rt.alloc(), Blank::new(1), &SPANS)
}

#[test]
fn several_spans(rt: HostRuntime) -> Result<(), Fail> {
    assert_cases::<Brand, _>(&rt, rt.alloc(), Blank::new(1), &SEVERAL_SPANS)
}

#[test]
fn groups_in_spans(rt: HostRuntime) -> Result<(), Fail> {
    assert_cases::<Brand, _>(&rt, rt.alloc(), Blank::new(1), &GROUPS_IN_SPANS)
}

fn assert_cases<L: Ledger, R: Abort>(
    rt: &R,
    alloc: Global,
    blank: Blank,
    cases: &[Case],
) -> Result<(), Fail>
    requires name { blank.name ≡ L.name }
    requires parts { blank.parts ≡ L.parts }
    requires some { 0 < L.parts }
{
    let mut steps = Steps::<L>::open(blank);
    for case in cases {
        assert_case(rt, alloc, case, &mut steps)?;
    }
    Ok(())
}

fn assert_case<L: Ledger, R: Abort>(
    rt: &R,
    alloc: Global,
    case: &Case,
    steps: &mut Steps<L>,
) -> Result<(), Fail> {
    let (name, text, years, marginals) = *case;
    let scene = read_scene(alloc, text, "", years)?;
    for (event, whole, parts) in marginals {
        let marginal = marginal(alloc, &scene, *event, steps)?;
        assert_parts(rt, &marginal, parts, *whole, name);
    }
    Ok(())
}

#[test]
fn all_events(rt: HostRuntime) -> Result<(), Fail> {
    assert_contexts::<Brand, _>(&rt, rt.alloc(), Blank::new(1))
}

fn assert_contexts<L: Ledger, R: Abort>(rt: &R, alloc: Global, blank: Blank) -> Result<(), Fail>
    requires name { blank.name ≡ L.name }
    requires parts { blank.parts ≡ L.parts }
    requires some { 0 < L.parts }
{
    let mut steps = Steps::<L>::open(blank);
    for case in &CONTEXTS {
        assert_context(rt, alloc, case, &mut steps)?;
    }
    Ok(())
}

// Each marginal meets that of one pass for each cell, and is the recipe's own.
fn assert_context<L: Ledger, R: Abort>(
    rt: &R,
    alloc: Global,
    case: &Context,
    steps: &mut Steps<L>,
) -> Result<(), Fail> {
    let (name, text, curve, years, table, lower, upper) = *case;
    let scene = read_scene(alloc, text, curve, years)?;
    let events = scene.model.events();
    assert!(rt;
        lower.len() == events as usize && upper.len() == events as usize,
        "{name}"
    );
    for event in 0..events {
        let marginal = marginal(alloc, &scene, event, steps)?;
        let held = pinned_marginal(alloc, &scene, event, table, steps)?;
        assert_meet(rt, &marginal, &held, name, event);
        let (lower, upper) = (lower[event as usize], upper[event as usize]);
        assert_ends(rt, &marginal, (lower, upper), name, event);
    }
    Ok(())
}

// At each cell a number lies between the ends of both.
fn assert_meet(rt: &impl Abort, a: &Marginal, b: &Marginal, name: &str, event: u32) {
    assert!(rt; a.len() == b.len(), "{name}, event {event}");
    for cell in 0..a.len() {
        let (a, b) = (a.pair(cell), b.pair(cell));
        assert!(rt;
            a.0 <= b.1 && b.0 <= a.1,
            "{name}, event {event}, cell {cell}"
        );
    }
}

fn assert_ends(
    rt: &impl Abort,
    marginal: &Marginal,
    (lower, upper): (&[u32], &[u32]),
    name: &str,
    event: u32,
) {
    let cells = marginal.len();
    assert!(rt;
        lower.len() == cells && upper.len() == cells,
        "{name}, event {event}"
    );
    for cell in 0..cells {
        assert_eq!(rt;
            marginal.pair(cell),
            (lower[cell], upper[cell]),
            "{name}, event {event}, cell {cell}"
        );
    }
}
