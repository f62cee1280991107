//! Rows and their pairs, worked out from the rules by `cases/marginal_cases.py`.
use crate::ends::{Ends, FULL, HALF, enc};
use cg_marginal::{Marginal, finish};
use cg_table::Row;
use std::process::Abort;
use std::test::Fail;

const ZERO: Ends = (0, 0, 0);

const ONE: Ends = (HALF, HALF, -62);

const THIRD: Ends = (0x5555_5555_5555_5555, 0x5555_5555_5555_5556, -64);

/// The greatest loss that a row may have: 2^41 - 1.
pub(crate) const LOSS: u64 = 0x1ff_ffff_ffff;

fn row_of<R: AllocGlobal + Abort>(rt: &R, entries: &[Ends]) -> Result<Row, Fail> {
    let mut row = Row::new(rt.alloc());
    for entry in entries {
        row.push(enc(rt, *entry))?;
    }
    Ok(row)
}

fn finished<R: AllocGlobal + Abort>(rt: &R, entries: &[Ends]) -> Result<Marginal, Fail> {
    let row = row_of(rt, entries)?;
    assert!(rt; 0 < row.len() && row.len() <= 512);
    assert!(rt; row.loss() <= LOSS && row.reach() < 0x10_0000);
    Ok(finish(rt.alloc(), &row)?)
}

fn assert_pairs<R: AllocGlobal + Abort>(
    rt: &R,
    entries: &[Ends],
    want: &[(u32, u32)],
) -> Result<(), Fail> {
    let marginal = finished(rt, entries)?;
    assert_eq!(rt; marginal.len(), want.len());
    for (cell, pair) in want.iter().enumerate() {
        assert_eq!(rt; marginal.pair(cell), *pair, "cell {cell} of {entries:?}");
    }
    Ok(())
}

#[test]
fn whole_numbers_become_pairs(rt: HostRuntime) -> Result<(), Fail> {
    let three = (0x6000_0000_0000_0000, 0x6000_0000_0000_0000, -61);
    let five = (0x5000_0000_0000_0000, 0x5000_0000_0000_0000, -60);
    assert_pairs(&rt, &[three], &[(1_000_000, 1_000_000)])?;
    // a half is exact, a third and a sixth are not
    assert_pairs(
        &rt,
        &[three, (HALF, HALF, -61), ONE],
        &[(500_000, 500_000), (333_333, 333_334), (166_666, 166_667)],
    )?;
    assert_pairs(
        &rt,
        &[ZERO, five, ZERO],
        &[(0, 0), (1_000_000, 1_000_000), (0, 0)],
    )?;
    // one part in a million, and a little less
    assert_pairs(
        &rt,
        &[ONE, (0x7a11_f800_0000_0000, 0x7a11_f800_0000_0000, -43)],
        &[(1, 1), (999_999, 999_999)],
    )?;
    assert_pairs(
        &rt,
        &[ONE, (0x7a12_0000_0000_0000, 0x7a12_0000_0000_0000, -43)],
        &[(0, 1), (999_999, 1_000_000)],
    )
}

#[test]
fn enclosures_become_pairs(rt: HostRuntime) -> Result<(), Fail> {
    assert_pairs(&rt, &[THIRD, THIRD, THIRD], &[(333_333, 333_334); 3])?;
    // exponents far apart
    assert_pairs(
        &rt,
        &[(HALF, HALF, -1000), ONE],
        &[(0, 1), (999_999, 1_000_000)],
    )?;
    assert_pairs(
        &rt,
        &[(FULL, FULL, 900), (HALF, HALF, -900), (FULL, FULL, 899)],
        &[(666_666, 666_667), (0, 1), (333_333, 333_334)],
    )?;
    // the greatest loss
    let wide = (HALF - LOSS, HALF, 0);
    assert_pairs(
        &rt,
        &[wide, wide, (HALF - LOSS, HALF, 1)],
        &[(249_999, 250_001), (249_999, 250_001), (499_999, 500_001)],
    )
}

#[test]
fn zeros_are_impossible(rt: HostRuntime) -> Result<(), Fail> {
    let marginal = finished(&rt, &[ZERO, ZERO])?;
    assert!(rt; matches!(marginal, Marginal::Impossible));
    assert_eq!(rt; marginal.len(), 0);
    Ok(())
}
