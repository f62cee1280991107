//! Curve files, the curve at a year, and curves by name.

use cg_curve::{Curve, CurveFault, Curves, read_curve};
use std::alloc::{AllocError, Global};
use std::fmt::Write;
use std::test::Fail;

static FAULTS: [(&str, CurveFault); 27] = [
    ("", CurveFault::TooFew),
    ("2000,1,1", CurveFault::TooFew),
    (
        "# remark\n! remark\n\n \t\r\n2000,1,1\n",
        CurveFault::TooFew,
    ),
    ("3000,1", CurveFault::BadRow(1)),
    ("3000.5,1,1", CurveFault::BadRow(1)),
    ("3000,1,1.2345", CurveFault::BadRow(1)),
    ("3000,1,1\r", CurveFault::BadRow(1)),
    ("1000000000000,1,1", CurveFault::BadRow(1)),
    (" #", CurveFault::BadRow(1)),
    (",,,", CurveFault::BadRow(1)),
    ("\n\n# remark\r\n2000,1", CurveFault::BadRow(4)),
    ("2000,70001,1", CurveFault::OutOfRange(1)),
    ("2000,70000.001,1", CurveFault::OutOfRange(1)),
    ("2000,-10000.001,1", CurveFault::OutOfRange(1)),
    ("2000,1,10001", CurveFault::OutOfRange(1)),
    ("2000,1,-0.001", CurveFault::OutOfRange(1)),
    ("2000,1,1\n2000,1,1", CurveFault::Order(2)),
    ("2000,1,1\n1990,1,1\n1995,1,1", CurveFault::Order(3)),
    ("2000,1,1\n2010,1,1\n1995,1,1", CurveFault::Order(3)),
    ("2000,1,1\n1990,1,1\n1990,1,1", CurveFault::Order(3)),
    ("3000,1,1\n1999,1,1", CurveFault::Gap(2)),
    ("1999,1,1\n3000,1,1", CurveFault::Gap(2)),
    ("2000,1,1\nx\n1000,70001,1", CurveFault::BadRow(2)),
    ("2000,1,1\n2000,70001,1", CurveFault::OutOfRange(2)),
    ("2000,1,1\n1990,1,1\n4000,1,1", CurveFault::Order(3)),
    ("2000,1,1\n\n900,1,1\nx", CurveFault::Gap(3)),
    (
        "2000,1,1\n1990,1,1\n1980 1 1 1 x\n-5x",
        CurveFault::BadRow(4),
    ),
];

#[test]
fn faults(rt: HostRuntime) {
    for (text, want) in &FAULTS {
        let bytes = text.as_bytes();
        assert!(rt; bytes.len() < 1000);
        assert!(rt;
            read_curve(rt.alloc(), bytes).err() == Some(*want),
            "of {text:?}"
        );
    }
}

// Each is a file of the same two rows.
static TWO_ROWS: [&str; 6] = [
    "2002,2010,0\n2000,1990,0.5",
    "2000,1990,0.5\n2002,2010,0\n",
    "2002,2010,0\r\n2000,1990,0.5\r\n",
    "# remark\r\n! remark\r\n \t\r\n2002,2010,0\r\n\r\n2000,1990,0.5",
    " 2002 2010\t0\n,2000 ,, 1990,\t0.5,",
    "+2002.000,02010,-0,9,x\n2000,1990,0.50,,#",
];

/// A year, and the age, the sigma and the gap of the curve there.
type Point = (i32, Option<(i64, i64, u32)>);

fn point(curve: &Curve, year: i32) -> Option<(i64, i64, u32)> {
    match curve.at(year) {
        Some(at) => Some((at.age, at.sigma, at.gap)),
        None => None,
    }
}

static AT_TWO_ROWS: [Point; 5] = [
    (2003, None),
    (2002, Some((2_010_000, 0, 1))),
    (2001, Some((4_000_000, 500, 2))),
    (2000, Some((1_990_000, 500, 1))),
    (1999, None),
];

#[test]
fn either_order_and_any_separators(rt: HostRuntime) -> Result<(), Fail> {
    for text in &TWO_ROWS {
        let bytes = text.as_bytes();
        assert!(rt; bytes.len() < 1000);
        let curve = read_curve(rt.alloc(), bytes)?;
        for (year, want) in &AT_TWO_ROWS {
            assert!(rt; point(&curve, *year) == *want, "{year} of {text:?}");
        }
    }
    Ok(())
}

static WIDEST: [Point; 10] = [
    (i32::MAX, None),
    (1001, None),
    (1000, Some((70_000_000, 10_000_000, 1))),
    (999, Some((69_920_000_000, 9_990_000_000, 1000))),
    (1, Some((-9_920_000_000, 10_000_000, 1000))),
    (0, Some((-10_000_000, 0, 1))),
    (-1, Some((-10_000_000_000, 1_000, 1000))),
    (-1000, Some((-10_000_000, 1_000, 1))),
    (-1001, None),
    (i32::MIN, None),
];

#[test]
fn the_straight_line(rt: HostRuntime) -> Result<(), Fail> {
    let curve = read_curve(rt.alloc(), b"2002,2010,0\n2000,1990,0")?;
    assert!(rt; point(&curve, 2001) == Some((4_000_000, 0, 2)));
    let curve = read_curve(rt.alloc(), b"1000,70000,10000\n0,-10000,0\n-1000,-10000,1")?;
    for (year, want) in &WIDEST {
        assert!(rt; point(&curve, *year) == *want, "{year} cal BP");
    }
    Ok(())
}

/// Rows of the real form, five years apart, with ages 100 below and a sigma of 12.5.
fn real_form(alloc: Global, rows: u16) -> Result<String, AllocError> {
    let mut text = String::new(alloc);
    text.push_str("##a curve in the form of IntCal20\n#CAL BP,14C age,Sigma,Delta 14C,Sigma\n")?;
    for row in 0..rows {
        let year = 47_500 - 5 * i64::from(row);
        let age = year - 100;
        writeln!(text, "{year},{age},12.5,-{row}.25,1.5")?;
    }
    Ok(text)
}

static REAL_FORM: [Point; 7] = [
    (47_501, None),
    (47_500, Some((47_400_000, 12_500, 1))),
    (47_497, Some((236_985_000, 62_500, 5))),
    (20_000, Some((19_900_000, 12_500, 1))),
    (1, Some((-495_000, 62_500, 5))),
    (0, Some((-100_000, 12_500, 1))),
    (-1, None),
];

#[test]
fn a_file_of_the_real_form(rt: HostRuntime) -> Result<(), Fail> {
    let text = real_form(rt.alloc(), 9_501)?;
    assert!(rt; text.len() < 1_000_000);
    let curve = read_curve(rt.alloc(), text.as_bytes())?;
    for (year, want) in &REAL_FORM {
        assert!(rt; point(&curve, *year) == *want, "{year} cal BP");
    }
    Ok(())
}

/// Rows of one year each, the youngest first.
fn rising(alloc: Global, rows: u32) -> Result<String, AllocError> {
    let mut text = String::new(alloc);
    for year in 0..rows {
        writeln!(text, "{year} 1 1")?;
    }
    Ok(text)
}

#[test]
fn the_most_rows(rt: HostRuntime) -> Result<(), Fail> {
    let text = rising(rt.alloc(), 20_000)?;
    assert!(rt; text.len() < 1_000_000);
    let curve = read_curve(rt.alloc(), text.as_bytes())?;
    assert!(rt; point(&curve, 19_999) == Some((1_000, 1_000, 1)));
    assert!(rt; point(&curve, 20_000) == None);
    Ok(())
}

#[test]
fn one_row_too_many(rt: HostRuntime) -> Result<(), Fail> {
    let text = rising(rt.alloc(), 20_001)?;
    assert!(rt; text.len() < 1_000_000);
    let fault = read_curve(rt.alloc(), text.as_bytes()).err();
    assert!(rt; fault == Some(CurveFault::TooMany(20_001)));
    Ok(())
}

/// Adds a curve of two rows, of this year and its negative, and says whether there was room for the name.
fn add(alloc: Global, curves: &mut Curves, name: &[u8], year: u8) -> Result<bool, Fail> {
    if curves.count() == 4 || curves.find(name).is_some() {
        return Ok(false);
    }
    let text = format!(in alloc; "{year},1,0\n-{year},1,0\n")?;
    if text.len() > 1000 {
        return Ok(false);
    }
    let curve = read_curve(alloc, text.as_bytes())?;
    curves.push(name, curve)?;
    Ok(true)
}

static ADDED: [(&str, bool); 6] = [
    ("IntCal20.14c", true),
    ("Marine20.14c", true),
    ("SHCal20.14c", true),
    ("INTCAL20.14C", false),
    ("", true),
    ("fifth", false),
];

static FOUND: [(&str, Option<u8>); 7] = [
    ("IntCal20.14c", Some(1)),
    ("iNTcAL20.14C", Some(1)),
    ("marine20.14c", Some(2)),
    ("SHCAL20.14c", Some(3)),
    ("", Some(4)),
    ("SHCal20.14", None),
    ("SHCal20/14c", None),
];

/// Whether the curve of this number is that of the year of its number.
fn is_its_own(curves: &Curves, number: u8) -> bool {
    if number == 0 || number > curves.count() {
        return false;
    }
    let curve = curves.get(number);
    let year = i32::from(number);
    curve.at(year).is_some() && curve.at(year + 1).is_none()
}

#[test]
fn curves_by_name(rt: HostRuntime) -> Result<(), Fail> {
    let mut curves = Curves::new(rt.alloc());
    assert!(rt; curves.find(b"IntCal20.14c") == None);
    for (name, want) in &ADDED {
        let year = curves.count() + 1;
        let done = add(rt.alloc(), &mut curves, name.as_bytes(), year)?;
        assert!(rt; done == *want, "of {name:?}");
    }
    assert!(rt; curves.count() == 4);
    for (name, want) in &FOUND {
        let number = curves.find(name.as_bytes());
        assert!(rt; number == *want, "of {name:?}");
        if let Some(number) = number {
            assert!(rt; is_its_own(&curves, number), "of {name:?}");
        }
    }
    Ok(())
}
