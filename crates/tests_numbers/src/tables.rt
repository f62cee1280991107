//! Tables of three cells: the expected entries are of `cases/table_cases.py`.
ghost use Rattle.std.specs.Prelude.{◌≡◌, ◌<◌, ◌^◌, All, IfOk, length};
ghost use Rattle.cg_enc.specs.Enclosure.{IsExponent};
ghost use Rattle.cg_table.specs.Losses.{greatest_reach};
ghost use Rattle.cg_table.specs.Table.{table_reach};

use crate::ends::{Ends, HALF, enc, ends};
use cg_enc::Enc;
use cg_table::{
    Row, Steps, Tri, after_group, before_group, beside, identity, of_row, spanned, then, then_row,
    total,
};
use std::alloc::Global;
use std::marker::Brand;
use std::process::Abort;
use std::sync::ledger::{Blank, Ledger};
use std::test::Fail;

static LEFT: [Ends; 6] = [
    (HALF, HALF, -62),
    (0x5555_5555_5555_5555, 0x5555_5555_5555_5556, -64),
    (0, 0, 0),
    (HALF, HALF, -61),
    (0x5000_0000_0000_0000, 0x5000_0000_0000_0000, -60),
    (0x5555_5555_5555_5555, 0x5555_5555_5555_5556, -64),
];

static RIGHT: [Ends; 6] = [
    (0x6000_0000_0000_0000, 0x6000_0000_0000_0000, -61),
    (0, 0, 0),
    (0x5555_5555_5555_5555, 0x5555_5555_5555_5556, -64),
    (0x7000_0000_0000_0000, 0x7000_0000_0000_0000, -60),
    (HALF, HALF, -62),
    (HALF, HALF, -61),
];

static WEIGHTS: [Ends; 3] = [
    (0x5555_5555_5555_5555, 0x5555_5555_5555_5556, -64),
    (0x5800_0000_0000_0000, 0x5800_0000_0000_0000, -59),
    (0, 0, 0),
];

static IDENTITY: [Ends; 6] = [
    (HALF, HALF, -62),
    (0, 0, 0),
    (0, 0, 0),
    (HALF, HALF, -62),
    (0, 0, 0),
    (HALF, HALF, -62),
];

static ROW: [Ends; 6] = [
    (0x5555_5555_5555_5555, 0x5555_5555_5555_5556, -64),
    (0x5800_0000_0000_0000, 0x5800_0000_0000_0000, -59),
    (0, 0, 0),
    (0x5800_0000_0000_0000, 0x5800_0000_0000_0000, -59),
    (0, 0, 0),
    (0, 0, 0),
];

static THEN: [Ends; 6] = [
    (0x6000_0000_0000_0000, 0x6000_0000_0000_0000, -61),
    (0x4aaa_aaaa_aaaa_aaaa, 0x4aaa_aaaa_aaaa_aaac, -61),
    (0x5555_5555_5555_5555, 0x5555_5555_5555_5556, -63),
    (0x7000_0000_0000_0000, 0x7000_0000_0000_0000, -59),
    (0x6000_0000_0000_0000, 0x6000_0000_0000_0000, -59),
    (0x5555_5555_5555_5555, 0x5555_5555_5555_5556, -63),
];

static THEN_ROW: [Ends; 6] = [
    (0x5555_5555_5555_5555, 0x5555_5555_5555_5556, -64),
    (0x7555_5555_5555_5554, 0x7555_5555_5555_5557, -59),
    (0, 0, 0),
    (0x5800_0000_0000_0000, 0x5800_0000_0000_0000, -58),
    (0, 0, 0),
    (0, 0, 0),
];

static BESIDE: [Ends; 6] = [
    (0x6000_0000_0000_0000, 0x6000_0000_0000_0000, -61),
    (HALF - 1, HALF + 1, -62),
    (0x71c7_1c71_c71c_71c6, 0x71c7_1c71_c71c_71c9, -64),
    (0x7000_0000_0000_0000, 0x7000_0000_0000_0000, -59),
    (0x5400_0000_0000_0000, 0x5400_0000_0000_0000, -57),
    (0x5555_5555_5555_5555, 0x5555_5555_5555_5556, -63),
];

static AFTER: [Ends; 6] = [
    (HALF, HALF, -62),
    (0x5555_5555_5555_5555, 0x5555_5555_5555_5556, -64),
    (0, 0, 0),
    (0x5555_5555_5555_5555, 0x5555_5555_5555_5556, -62),
    (0, 0, 0),
    (0x5555_5555_5555_5555, 0x5555_5555_5555_5556, -62),
];

static BEFORE: [Ends; 6] = [
    (0x5555_5555_5555_5555, 0x5555_5555_5555_5556, -62),
    (0, 0, 0),
    (0, 0, 0),
    (0x7000_0000_0000_0000, 0x7000_0000_0000_0000, -60),
    (0, 0, 0),
    (0x5555_5555_5555_5555, 0x5555_5555_5555_5556, -64),
];

static SPANNED: [Ends; 6] = [
    (HALF, HALF, -62),
    (0x5555_5555_5555_5555, 0x5555_5555_5555_5556, -64),
    (0x4bda_12f6_84bd_a12e, 0x4bda_12f6_84bd_a132, -65),
    (HALF, HALF, -61),
    (0x7000_0000_0000_0000, 0x7000_0000_0000_0000, -62),
    (0x5555_5555_5555_5555, 0x5555_5555_5555_5556, -64),
];

static PLACES: [(usize, usize); 6] = [(0, 0), (0, 1), (0, 2), (1, 1), (1, 2), (2, 2)];

fn entries(rt: &impl Abort, heap: Global, numbers: &[Ends]) -> Result<Vec<Enc>, Fail>
    ensures { IfOk result (λ entries. All (λ e. IsExponent (2 ^ 60) e.exp) entries.items) }
{
    let mut entries = Vec::new(heap);
    for ends in numbers {
        entries.push(enc(rt, *ends))?;
    }
    Ok(entries)
}

// A table of three cells.
fn tri(rt: &impl Abort, heap: Global, numbers: &[Ends]) -> Result<Tri, Fail>
    ensures cells { IfOk result (λ t. t.cells ≡ 3) }
    ensures reach { IfOk result (λ t. table_reach t ≡ 1) }
{
    let entries = entries(rt, heap, numbers)?;
    assert_eq!(rt; entries.len(), 6);
    let made = Tri::of_entries(3, entries);
    assert_eq!(rt; made.reach(), 1);
    Ok(made)
}

fn weights(rt: &impl Abort, heap: Global) -> Result<Row, Fail>
    ensures cells { IfOk result (λ row. length row ≡ 3) }
    ensures reach { IfOk result (λ row. greatest_reach row ≡ 1) }
{
    let mut row = Row::new(heap);
    for ends in WEIGHTS.iter() {
        row.push(enc(rt, *ends))?;
    }
    assert_eq!(rt; row.len(), 3);
    assert_eq!(rt; row.reach(), 1);
    Ok(row)
}

fn same(rt: &impl Abort, call: &str, made: &Tri, wanted: &[Ends; 6]) {
    assert_eq!(rt; made.cells(), 3);
    for (place, (a, b)) in PLACES.iter().enumerate() {
        assert!(rt; *a <= *b && *b < made.cells() && place < 6);
        assert_eq!(rt; ends(made.get(*a, *b)), wanted[place], "{call} at {a}, {b}");
    }
}

#[test]
fn tables_of_rows(rt: HostRuntime) -> Result<(), Fail> {
    same(&rt, "identity", &identity(rt.alloc(), 3)?, &IDENTITY);
    let row = weights(&rt, rt.alloc())?;
    same(&rt, "of_row", &of_row(rt.alloc(), &row)?, &ROW);
    Ok(())
}

#[test]
fn tables_of_groups(rt: HostRuntime) -> Result<(), Fail> {
    let left = tri(&rt, rt.alloc(), &LEFT)?;
    same(&rt, "left", &left, &LEFT);
    assert_eq!(rt; left.loss(), 1);
    same(&rt, "after_group", &after_group(&left)?, &AFTER);
    same(&rt, "before_group", &before_group(&left)?, &BEFORE);
    Ok(())
}

#[test]
fn totals(rt: HostRuntime) -> Result<(), Fail> {
    let right = tri(&rt, rt.alloc(), &RIGHT)?;
    assert_eq!(rt;
        ends(total(&right)),
        (0x6aaa_aaaa_aaaa_aaaa, 0x6aaa_aaaa_aaaa_aaab, -61)
    );
    assert_eq!(rt; right.loss(), 1);
    Ok(())
}

#[test]
fn tables_that_count_steps(rt: HostRuntime) -> Result<(), Fail> {
    counted::<Brand, _>(&rt, rt.alloc(), Blank::new(1))
}

fn counted<L: Ledger, R: Abort>(rt: &R, heap: Global, blank: Blank) -> Result<(), Fail>
    requires name { blank.name ≡ L.name }
    requires parts { blank.parts ≡ L.parts }
    requires some { 0 < L.parts }
{
    let mut steps = Steps::<L>::open(blank);
    let left = tri(rt, heap, &LEFT)?;
    let right = tri(rt, heap, &RIGHT)?;
    let row = weights(rt, heap)?;
    same(rt, "then", &then(&left, &right, &mut steps)?, &THEN);
    same(
        rt,
        "then_row",
        &then_row(&left, &row, &mut steps)?,
        &THEN_ROW,
    );
    same(rt, "beside", &beside(&left, &right, &mut steps)?, &BESIDE);
    same(rt, "spanned", &spanned(&left, 2, &mut steps)?, &SPANNED);
    Ok(())
}
