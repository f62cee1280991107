//! Rows of a few entries: the losses are `(hi - lo) * 2^62 / hi` rounded up, the reaches `|exp| / 2^31` rounded up.
use crate::ends::{Ends, FAR, FULL, HALF, enc, ends};
use cg_table::Row;
use std::process::Abort;
use std::test::Fail;

// 2^31, the unit of a reach.
const REACH: i64 = 0x8000_0000;

// An entry, and the loss and the reach of the row up to it.
static PUSHED: [(Ends, u64, u32); 11] = [
    ((HALF, HALF, 0), 0, 0),
    ((0, 0, 0), 0, 0),
    ((HALF, HALF, 1), 0, 1),
    ((HALF - 5, HALF, REACH), 5, 1),
    ((HALF - 4, HALF, -REACH), 5, 1),
    ((HALF, HALF, -REACH - 1), 5, 2),
    // 11 / 2 is rounded up, less than one part in 2^62 is a whole one
    ((FULL - 11, FULL, 0), 6, 2),
    ((FULL - 12, FULL, 0), 7, 2),
    ((HALF, HALF, 2 * REACH + 1), 7, 3),
    ((0, HALF + 1, 0), HALF, 3),
    ((HALF, HALF, -FAR), HALF, 0x2000_0000),
];

// Adds an entry, and asserts the loss and the reach of the row up to it.
fn push(
    rt: &impl Abort,
    row: &mut Row,
    place: usize,
    (entry, loss, reach): (Ends, u64, u32),
) -> Result<(), Fail> {
    row.push(enc(rt, entry))?;
    assert_eq!(rt; row.loss(), loss, "loss up to {place}");
    assert_eq!(rt; row.reach(), reach, "reach up to {place}");
    Ok(())
}

fn pushed<R: AllocGlobal + Abort>(rt: &R) -> Result<Row, Fail> {
    let mut row = Row::new(rt.alloc());
    assert_eq!(rt; row.len(), 0);
    for (place, entry) in PUSHED.iter().enumerate() {
        push(rt, &mut row, place, *entry)?;
        assert_eq!(rt; row.len(), place + 1);
    }
    Ok(row)
}

#[test]
fn a_row_keeps_its_entries(rt: HostRuntime) -> Result<(), Fail> {
    let row = pushed(&rt)?;
    for (cell, (entry, _, _)) in PUSHED.iter().enumerate() {
        assert!(rt; cell < row.len());
        assert_eq!(rt; ends(row.get(cell)), *entry, "cell {cell}");
    }
    Ok(())
}
