ghost use Rattle.std.specs.Prelude.{◌≡◌, ◌<◌, ◌≤◌, ◌-◌, ◌↔◌, ℤ, ◌+ℤ◌, ◌*ℤ◌, ◌<ℤ◌, option_map, unsigned_abs, IsSome, IfSome};
ghost use Rattle.cg_meaning.specs.Curve.{point_at, point_at_row, point_between};
ghost use Rattle.cg_curve.specs.Rows.{IsCurve, IsRowInRange, IsNear, Covers};
ghost use Rattle.cg_curve.specs.Point.{point_of, IsWithin, IsBetween};

use crate::row::Row;
use std::marker::Model;

/// A radiocarbon calibration curve.
#[derive(Drop)]
pub struct Curve {
    rows: Vec<Row>,
}

impl Model for Curve {
    ghost use Rattle.cg_meaning.specs.Curve as meaning;
    ghost use Rattle.cg_curve.specs.Rows.{IsCurve};

    ghost Value = { meaning.Curve };

    ghost view = { λ c. c.rows.items };

    ghost invariant = { λ c. IsCurve c.rows.items };
}

/// The curve at a year: the radiocarbon age and its one sigma, in thousandths of a year times `gap`.
#[derive(Clone, Copy, Debug, PartialEq, Eq)]
pub struct At {
    pub age: i64,
    pub sigma: i64,
    /// The years from the row before to the row behind, and 1 at a row.
    pub gap: u32,
}

impl Curve {
    pub(crate) fn of_rows(rows: Vec<Row>) -> Curve
        requires { IsCurve rows.items }
        ensures { result ≡ rows.items }
    {
        Curve { rows }
    }

    /// The curve at a cal BP year, on the straight line between the rows around it. Exact: nothing is rounded.
    ///
    /// `None` exactly outside the rows. Takes no memory.
    pub fn at(&self, bp: i32) -> Option<At>
        ensures value { option_map point_of result ≡ point_at self.now bp }
        ensures covered { IsSome result ↔ Covers self.now bp }
        ensures within { IfSome result IsWithin }
        ensures valid { IsCurve self.now }
    {
        at_year(&self.rows, bp)
    }
}

/// How many rows are older than the year.
fn older_rows(rows: &[Row], year: i64) -> usize
    ensures { IsBetween rows.now year result result }
{
    let mut low = 0;
    let mut high = rows.len();
    while low < high {
        let middle = low + (high - low) / 2;
        let row = rows[middle];
        if row.year > year {
            low = middle + 1;
        } else {
            high = middle;
        }
    }
    low
}

fn at_year(rows: &[Row], bp: i32) -> Option<At>
    requires { IsCurve rows.now }
    ensures value { option_map point_of result ≡ point_at rows.now bp }
    ensures within { IfSome result IsWithin }
{
    let year = i64::from(bp);
    let place = older_rows(rows, year);
    if place == rows.len() {
        return None;
    }
    let younger = rows[place];
    if younger.year == year {
        return Some(at_row(younger));
    }
    if place == 0 {
        return None;
    }
    Some(between(rows[place - 1], younger, bp))
}

fn at_row(row: Row) -> At
    requires { IsRowInRange row }
    ensures value { point_of result ≡ point_at_row row }
    ensures within { IsWithin result }
{
    At {
        age: row.age,
        sigma: row.sigma,
        gap: 1,
    }
}

/// The point on the straight line from the older row to the younger.
fn between(older: Row, younger: Row, bp: i32) -> At
    requires below { younger.year <ℤ bp }
    requires above { bp <ℤ older.year }
    requires near { IsNear older younger }
    requires older { IsRowInRange older }
    requires younger { IsRowInRange younger }
    ensures value { point_of result ≡ point_between older younger bp }
    ensures within { IsWithin result }
{
    let year = i64::from(bp);
    let from_older = older.year - year;
    let to_younger = year - younger.year;
    At {
        age: on_line(older.age, younger.age, to_younger, from_older),
        sigma: on_line(older.sigma, younger.sigma, to_younger, from_older),
        gap: older.year.abs_diff(younger.year) as u32,
    }
}

/// A value on the straight line, times the gap.
fn on_line(older: i64, younger: i64, to_younger: i64, from_older: i64) -> i64
    requires older { unsigned_abs older ≤ 70000000 }
    requires younger { unsigned_abs younger ≤ 70000000 }
    requires to_younger { unsigned_abs to_younger ≤ 1000 }
    requires from_older { unsigned_abs from_older ≤ 1000 }
    ensures { result ≡ (older *ℤ to_younger) +ℤ (younger *ℤ from_older) }
{
    older * to_younger + younger * from_older
}
