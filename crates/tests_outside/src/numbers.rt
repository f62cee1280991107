//! Years and decimal numbers, and their texts.

use cg_num::{Decimal, NumFault, Year, read_decimal, write_decimal, write_label};
use std::alloc::Global;
use std::test::Fail;

static YEARS_OF_BP: [(i64, Option<i32>); 8] = [
    (-1_001, None),
    (-1_000, Some(-1_000)),
    (0, Some(0)),
    (60_000, Some(60_000)),
    (60_001, None),
    (i64::MIN, None),
    (i64::MAX, None),
    (4_294_967_296, None),
];

fn bp_of(year: Option<Year>) -> Option<i32> {
    match year {
        Some(year) => Some(year.bp()),
        None => None,
    }
}

#[test]
fn years_of_bp(rt: HostRuntime) {
    for (number, want) in &YEARS_OF_BP {
        assert!(rt; bp_of(Year::of_bp(*number)) == *want, "{number} cal BP");
    }
}

static YEARS_OF_CALENDAR: [(i64, Option<i32>); 14] = [
    (-58_052, None),
    (-58_051, Some(60_000)),
    (-53, Some(2_002)),
    (-2, Some(1_951)),
    (-1, Some(1_950)),
    (0, None),
    (1, Some(1_949)),
    (1_949, Some(1)),
    (1_950, Some(0)),
    (1_951, Some(-1)),
    (2_950, Some(-1_000)),
    (2_951, None),
    (i64::MIN, None),
    (i64::MAX, None),
];

#[test]
fn years_of_calendar(rt: HostRuntime) {
    for (number, want) in &YEARS_OF_CALENDAR {
        assert!(rt; bp_of(Year::of_calendar(*number)) == *want, "year {number}");
    }
}

static LABELS: [(i64, &str); 10] = [
    (60_000, "> 58051 BC"),
    (2_002, "> 53 BC"),
    (2_000, "> 51 BC"),
    (1_951, "> 2 BC"),
    (1_950, "> 1 BC"),
    (1_949, "> AD 1"),
    (1_948, "> AD 2"),
    (0, "> AD 1950"),
    (-1, "> AD 1951"),
    (-1_000, "> AD 2950"),
];

// the label of a year behind other bytes
fn label(alloc: Global, number: i64) -> Result<Vec<u8>, Fail> {
    let year = Year::of_bp(number).ok_or("no year")?;
    let mut out = b"> ".to_vec(alloc)?;
    write_label(alloc, &year, &mut out)?;
    Ok(out)
}

#[test]
fn labels(rt: HostRuntime) -> Result<(), Fail> {
    for (number, want) in &LABELS {
        let out = label(rt.alloc(), *number)?;
        assert!(rt; out.as_slice() == want.as_bytes(), "{number} cal BP");
    }
    Ok(())
}

static READ: [(&str, i64); 15] = [
    ("0", 0),
    ("-0", 0),
    ("+0.000", 0),
    ("05.50", 5_500),
    ("+5.5", 5_500),
    ("-5.5", -5_500),
    ("-0.001", -1),
    ("0.01", 10),
    ("2.125", 2_125),
    ("1.2340", 1_234),
    ("1.000000000000000000000", 1_000),
    ("999999999999.999", 999_999_999_999_999),
    ("-999999999999.999", -999_999_999_999_999),
    ("00000999999999999", 999_999_999_999_000),
    ("0000000000000", 0),
];

// what is read from a text, in thousandths
fn read(text: &str) -> Result<i64, NumFault> {
    match read_decimal(text.as_bytes()) {
        Ok(number) => Ok(number.thousandths()),
        Err(fault) => Err(fault),
    }
}

#[test]
fn decimals_of_texts(rt: HostRuntime) {
    for (text, want) in &READ {
        assert!(rt; read(text) == Ok(*want), "of {text}");
    }
}

static NOT_READ: [(&str, NumFault); 22] = [
    ("1000000000000", NumFault::TooWide),
    ("-001000000000000", NumFault::TooWide),
    ("1000000000000.0001", NumFault::TooWide),
    ("1.2345", NumFault::TooManyDecimals),
    ("1.0005", NumFault::TooManyDecimals),
    ("2.0001", NumFault::TooManyDecimals),
    ("2.00000000000001", NumFault::TooManyDecimals),
    ("", NumFault::NotANumber),
    ("-", NumFault::NotANumber),
    ("+", NumFault::NotANumber),
    (".", NumFault::NotANumber),
    ("1.", NumFault::NotANumber),
    (".5", NumFault::NotANumber),
    ("-.5", NumFault::NotANumber),
    ("--1", NumFault::NotANumber),
    ("+-1", NumFault::NotANumber),
    ("1-", NumFault::NotANumber),
    ("1.2.3", NumFault::NotANumber),
    ("1.2345x", NumFault::NotANumber),
    ("1000000000000x", NumFault::NotANumber),
    (" 1", NumFault::NotANumber),
    ("1,5", NumFault::NotANumber),
];

#[test]
fn faults_of_texts(rt: HostRuntime) {
    for (text, want) in &NOT_READ {
        assert!(rt; read(text) == Err(*want), "of {text}");
    }
}

static THOUSANDTHS: [(i64, Option<i64>); 7] = [
    (-1_000_000_000_000_000, None),
    (-999_999_999_999_999, Some(-999_999_999_999_999)),
    (0, Some(0)),
    (999_999_999_999_999, Some(999_999_999_999_999)),
    (1_000_000_000_000_000, None),
    (i64::MIN, None),
    (i64::MAX, None),
];

fn thousandths_of(number: Option<Decimal>) -> Option<i64> {
    match number {
        Some(number) => Some(number.thousandths()),
        None => None,
    }
}

#[test]
fn decimals_of_thousandths(rt: HostRuntime) {
    for (number, want) in &THOUSANDTHS {
        assert!(rt;
            thousandths_of(Decimal::of_thousandths(*number)) == *want,
            "of {number}"
        );
    }
}

static TEXTS: [(i64, &str); 14] = [
    (0, "> 0"),
    (1, "> 0.001"),
    (-1, "> -0.001"),
    (10, "> 0.01"),
    (-500, "> -0.5"),
    (1_000, "> 1"),
    (5_500, "> 5.5"),
    (5_050, "> 5.05"),
    (5_005, "> 5.005"),
    (10_000, "> 10"),
    (-230_000, "> -230"),
    (60_000_000, "> 60000"),
    (999_999_999_999_999, "> 999999999999.999"),
    (-999_999_999_999_999, "> -999999999999.999"),
];

// the text of a decimal behind other bytes
fn text(alloc: Global, thousandths: i64) -> Result<Vec<u8>, Fail> {
    let number = Decimal::of_thousandths(thousandths).ok_or("no decimal")?;
    let mut out = b"> ".to_vec(alloc)?;
    write_decimal(alloc, &number, &mut out)?;
    Ok(out)
}

#[test]
fn texts_of_decimals(rt: HostRuntime) -> Result<(), Fail> {
    for (thousandths, want) in &TEXTS {
        let out = text(rt.alloc(), *thousandths)?;
        assert!(rt;
            out.as_slice() == want.as_bytes(),
            "{thousandths} thousandths"
        );
    }
    Ok(())
}
