//! Years and grids by their numbers, in cal BP.
use cg_model::Grid;
use cg_num::Year;
use std::test::Fail;

pub(crate) fn year(bp: i64) -> Result<Year, Fail> {
    Ok(Year::of_bp(bp).ok_or("no year")?)
}

/// From the older to the younger year.
pub(crate) fn grid(years: (i64, i64)) -> Result<Grid, Fail> {
    let (older, younger) = years;
    Ok(Grid::new(year(older)?, year(younger)?)?)
}
