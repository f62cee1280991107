mod plan;

use crate::*;
use cg_model::{Grid, ModelTree};
use cg_num::Year;
use plan::{Plan, model_of};
use std::alloc::Global;
use std::process::Abort;
use std::test::Fail;

const DATE: Plan = Plan::Date;

const BOUNDARY: Plan = Plan::Boundary;

const ONE_DATE: &[Plan] = &[DATE];

const TWO_EVENTS: &[Plan] = &[Plan::Sequence(&[DATE, DATE])];

const SIDE_BY_SIDE: &[Plan] = &[Plan::Phase(&[DATE, DATE])];

const WITH_AFTER: &[Plan] = &[Plan::Sequence(&[DATE, Plan::After(&[DATE]), DATE])];

const WITH_BEFORE: &[Plan] = &[Plan::Sequence(&[DATE, Plan::Before(&[DATE]), DATE])];

const BESIDE_NOTHING: &[Plan] = &[Plan::Phase(&[]), DATE];

const AFTER_LAST: &[Plan] = &[Plan::Sequence(&[DATE, Plan::After(&[DATE])])];

const BEFORE_FIRST: &[Plan] = &[Plan::Sequence(&[Plan::Before(&[DATE]), DATE])];

const SPAN: &[Plan] = &[Plan::Sequence(&[BOUNDARY, DATE, BOUNDARY])];

const NESTED_SPANS: &[Plan] = &[Plan::Sequence(&[
    BOUNDARY,
    Plan::Sequence(&[BOUNDARY, DATE, BOUNDARY]),
    BOUNDARY,
])];

const WRONG_ORDER: &[Plan] = &[Plan::Sequence(&[Plan::Exact(1_999), Plan::Exact(2_009)])];

const EXACT: &[Plan] = &[Plan::Exact(1_999)];

const RIGHT_ORDER: &[Plan] = &[Plan::Sequence(&[Plan::Exact(2_009), Plan::Exact(1_999)])];

// A model, the older and the younger year of its grid, an event of it, and the sums of weights: of all datings, and of
// those with the event at each cell.
type Row = (
    &'static [Plan<'static>],
    (i32, i32),
    u32,
    u128,
    &'static [u128],
);

fn grid(older: i32, younger: i32) -> Result<Grid, Fail> {
    let older = Year::of_bp(older as i64).ok_or("no year")?;
    let younger = Year::of_bp(younger as i64).ok_or("no year")?;
    Ok(Grid::new(older, younger)?)
}

// the sums with the event at each cell are these
fn assert_cells<R: AllocGlobal + Abort>(
    rt: &R,
    model: &ModelTree,
    grid: &Grid,
    event: u32,
    totals: &[u128],
) {
    assert!(rt; event < model.events() && grid.cells() == totals.len());
    for (cell, want) in totals.iter().enumerate() {
        let total = list_total_at(rt.alloc(), model, grid, event, cell);
        assert!(rt; total == Ok(*want), "cell {cell}");
    }
}

fn assert_rows<R: AllocGlobal + Abort>(rt: &R, rows: &[Row]) -> Result<(), Fail> {
    for (plans, years, event, total, totals) in rows {
        let model = model_of(rt.alloc(), plans)?;
        let grid = grid(years.0, years.1)?;
        assert!(rt; list_total(rt.alloc(), &model, &grid) == Ok(*total));
        assert_cells(rt, &model, &grid, *event, totals);
    }
    Ok(())
}

static ORDER: [Row; 6] = [
    // one date has its choice
    (ONE_DATE, (1_950, 1_949), 0, 2, &[1, 1]),
    (TWO_EVENTS, (2_000, 2_000), 0, 1, &[1]),
    // of nine lists, six are in order
    (TWO_EVENTS, (2_002, 2_000), 0, 6, &[3, 2, 1]),
    (TWO_EVENTS, (2_002, 2_000), 1, 6, &[1, 2, 3]),
    (SIDE_BY_SIDE, (2_001, 2_000), 0, 4, &[2, 2]),
    (SIDE_BY_SIDE, (2_001, 2_000), 1, 4, &[2, 2]),
];

#[test]
fn order(rt: HostRuntime) -> Result<(), Fail> {
    assert_rows(&rt, &ORDER)
}

static ONE_SIDED_GROUPS: [Row; 9] = [
    // the last at cell 0 leaves the others one way, at cell 1 four
    (WITH_AFTER, (2_001, 2_000), 0, 5, &[3, 2]),
    (WITH_AFTER, (2_001, 2_000), 1, 5, &[3, 2]),
    (WITH_AFTER, (2_001, 2_000), 2, 5, &[1, 4]),
    // the first at cell 0 leaves the others four ways, at cell 1 one
    (WITH_BEFORE, (2_001, 2_000), 0, 5, &[4, 1]),
    (WITH_BEFORE, (2_001, 2_000), 1, 5, &[2, 3]),
    (WITH_BEFORE, (2_001, 2_000), 2, 5, &[2, 3]),
    // groups that bound nothing
    (BESIDE_NOTHING, (2_001, 2_000), 0, 2, &[1, 1]),
    (AFTER_LAST, (2_001, 2_000), 0, 4, &[2, 2]),
    (BEFORE_FIRST, (2_001, 2_000), 1, 4, &[2, 2]),
];

#[test]
fn one_sided_groups(rt: HostRuntime) -> Result<(), Fail> {
    assert_rows(&rt, &ONE_SIDED_GROUPS)
}

static EXACT_YEARS: [Row; 4] = [
    (WRONG_ORDER, (2_010, 1_998), 0, 0, &[0; 13]),
    (
        RIGHT_ORDER,
        (2_010, 1_998),
        0,
        1,
        &[0, 1, 0, 0, 0, 0, 0, 0, 0, 0, 0, 0, 0],
    ),
    (
        RIGHT_ORDER,
        (2_010, 1_998),
        1,
        1,
        &[0, 0, 0, 0, 0, 0, 0, 0, 0, 0, 0, 1, 0],
    ),
    // outside the grid
    (EXACT, (1_998, 1_990), 0, 0, &[0; 9]),
];

#[test]
fn exact_years(rt: HostRuntime) -> Result<(), Fail> {
    assert_rows(&rt, &EXACT_YEARS)
}

static SPANS: [Row; 6] = [
    // a half, two thirds and a third: each two Boundaries in order weigh 2!
    (SPAN, (2_001, 2_000), 0, 6, &[4, 2]),
    (SPAN, (2_001, 2_000), 1, 6, &[3, 3]),
    (SPAN, (2_001, 2_000), 2, 6, &[2, 4]),
    // and here 3!
    (SPAN, (2_002, 2_000), 0, 36, &[18, 12, 6]),
    // seven and four elevenths: both outer Boundaries at one cell weigh 8, apart 6
    (NESTED_SPANS, (2_001, 2_000), 0, 22, &[14, 8]),
    (NESTED_SPANS, (2_001, 2_000), 2, 22, &[11, 11]),
];

#[test]
fn spans(rt: HostRuntime) -> Result<(), Fail> {
    assert_rows(&rt, &SPANS)
}

// the sum for one event, or for none, on the grid between these years
fn total(
    alloc: Global,
    top: &[Plan],
    years: (i32, i32),
) -> Result<Result<u128, ListingFault>, Fail> {
    let model = model_of(alloc, top)?;
    let grid = grid(years.0, years.1)?;
    Ok(list_total(alloc, &model, &grid))
}

#[test]
fn sizes(rt: HostRuntime) -> Result<(), Fail> {
    // one event on 33 cells, with 33 * 33! < 2^128, on 34, and none on 512
    let large = total(rt.alloc(), ONE_DATE, (2_032, 2_000))?;
    assert!(rt; large == Ok(33));
    let too_large = total(rt.alloc(), ONE_DATE, (2_033, 2_000))?;
    assert!(rt; too_large == Err(ListingFault::TooLarge));
    let empty = total(rt.alloc(), &[], (2_511, 2_000))?;
    assert!(rt; empty == Ok(1));
    Ok(())
}
