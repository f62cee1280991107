//! Grids, and the datings that they admit.
use cg_model::{Dating, Grid, GridLimit};
use cg_num::{Decimal, Year};
use std::test::Fail;

static GRIDS: [(i64, i64, i64); 3] = [(2_000, 2_000, 1), (2_511, 2_000, 512), (-489, -1_000, 512)];

static NO_GRIDS: [(i64, i64, i64); 4] = [
    (2_512, 2_000, 513),
    (2_000, 2_001, 0),
    (-1_000, 60_000, -60_999),
    (60_000, -1_000, 61_001),
];

fn year(bp: i64) -> Result<Year, Fail> {
    Ok(Year::of_bp(bp).ok_or("no year")?)
}

// the cells of the grid between these years, and its first and last year
fn ends(older: i64, younger: i64) -> Result<(i64, i64, i64), Fail> {
    let grid = Grid::new(year(older)?, year(younger)?)?;
    let cells = grid.cells();
    let first = grid.year(0).bp();
    let last = grid.year(cells - 1).bp();
    Ok((first as i64, last as i64, cells as i64))
}

#[test]
fn grids(rt: HostRuntime) -> Result<(), Fail> {
    for (older, younger, cells) in &GRIDS {
        assert!(rt;
            ends(*older, *younger)? == (*older, *younger, *cells),
            "{cells} cells"
        );
    }
    Ok(())
}

fn limit_between(older: i64, younger: i64) -> Result<Option<GridLimit>, Fail> {
    Ok(Grid::new(year(older)?, year(younger)?).err())
}

#[test]
fn refused_grids(rt: HostRuntime) -> Result<(), Fail> {
    for (older, younger, cells) in &NO_GRIDS {
        let limit = GridLimit { cells: *cells };
        assert!(rt;
            limit_between(*older, *younger)? == Some(limit),
            "{cells} cells"
        );
    }
    Ok(())
}

// at which of the years 2002 to 2000 cal BP a dating may be
fn admitted(dating: Dating) -> Result<[bool; 3], Fail> {
    let grid = Grid::new(year(2_002)?, year(2_000)?)?;
    if grid.cells() != 3 {
        return Err("not three cells")?;
    }
    Ok([
        grid.admits(&dating, 0),
        grid.admits(&dating, 1),
        grid.admits(&dating, 2),
    ])
}

static EXACT: [(i64, [bool; 3]); 3] = [
    (2_002, [true, false, false]),
    (2_000, [false, false, true]),
    (1_999, [false, false, false]),
];

#[test]
fn exact_years(rt: HostRuntime) -> Result<(), Fail> {
    for (bp, want) in &EXACT {
        assert!(rt;
            admitted(Dating::Exact(year(*bp)?))? == *want,
            "{bp} cal BP"
        );
    }
    Ok(())
}

#[test]
fn any_years(rt: HostRuntime) -> Result<(), Fail> {
    let normal = Dating::Normal(Year::within(1_999), Decimal::within(1_000));
    let carbon = Dating::Carbon(Decimal::within(0), Decimal::within(1_000));
    for dating in [Dating::Free, normal, carbon] {
        assert!(rt; admitted(dating)? == [true; 3]);
    }
    Ok(())
}
