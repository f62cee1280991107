//! Codes of rows, tables and marginals, in hexadecimal.
ghost use Rattle.cg_model.specs.Dating.{dating_of};
ghost use Rattle.cg_model.specs.Limits.{IsInRange};

use crate::tests::limits::widest;
use crate::tests::texts;
use cg_code::{Code, marginal_code, row_code, table_code};
use cg_model::{Dating, Grid, ModelTree};
use cg_num::{Decimal, Year};
use std::alloc::Global;
use std::fmt::Write;
use std::test::Fail;

fn grid(older: i64, younger: i64) -> Result<Grid, Fail> {
    let older = Year::of_bp(older).ok_or("no year")?;
    let younger = Year::of_bp(younger).ok_or("no year")?;
    Ok(Grid::new(older, younger)?)
}

// the bytes of a code in hexadecimal
fn text_of(alloc: Global, code: &Code) -> Result<String, Fail> {
    let mut text = String::new(alloc);
    for byte in code.bytes() {
        write!(text, "{byte:02x}")?;
    }
    Ok(text)
}

// the row of a dating
fn row(alloc: Global, dating: &Dating, grid: &Grid, curve: u8) -> Result<String, Fail>
    requires { IsInRange (dating_of dating.now) }
{
    let code = row_code(alloc, dating, grid, curve)?;
    text_of(alloc, &code)
}

// the table of a node of a model
fn table(alloc: Global, model: &str, place: u32, curve: u8) -> Result<String, Fail> {
    let model = texts::model(alloc, model)?;
    if place >= model.size() {
        return Err("no node")?;
    }
    let code = table_code(alloc, model.node(place), &grid(2_001, 1_999)?, curve)?;
    text_of(alloc, &code)
}

// the marginal of an event of a model
fn code_in(alloc: Global, model: &ModelTree, event: u32, curve: u8) -> Result<Code, Fail> {
    if event >= model.events() {
        return Err("no event")?;
    }
    Ok(marginal_code(alloc, model, event, &grid(2_001, 1_999)?, curve)?)
}

fn code_of(alloc: Global, model: &str, event: u32, curve: u8) -> Result<Code, Fail> {
    let model = texts::model(alloc, model)?;
    code_in(alloc, &model, event, curve)
}

fn marginal(alloc: Global, model: &str, event: u32, curve: u8) -> Result<String, Fail> {
    let code = code_of(alloc, model, event, curve)?;
    text_of(alloc, &code)
}

const SEQUENCE: &str = "Sequence(\"s\"){Date(\"A\");C_Date(\"B\",-50,5);};";

#[test]
fn first_of_a_sequence(rt: HostRuntime) -> Result<(), Fail> {
    let text = marginal(rt.alloc(), SEQUENCE, 0, 0)?;
    assert!(rt; text.as_str() == "4d0bb90bb700500001530002444e0bb7000013880000");
    Ok(())
}

// no dating; the ends of the years, of the errors and of the ages; thousandths
fn dating_at(place: u32) -> Dating
    ensures { IsInRange (dating_of result) }
{
    match place {
        1 => Dating::Exact(Year::within(60_000)),
        2 => Dating::Exact(Year::within(-1_000)),
        3 => Dating::Normal(Year::within(60_000), Decimal::within(1_000)),
        4 => Dating::Normal(Year::within(-1_000), Decimal::within(10_000_000)),
        5 => Dating::Carbon(Decimal::within(-2_000_000), Decimal::within(1_000)),
        6 => Dating::Carbon(Decimal::within(60_000_000), Decimal::within(10_000_000)),
        7 => Dating::Carbon(Decimal::within(2_340_125), Decimal::within(30_500)),
        _ => Dating::Free,
    }
}

static ROWS: [&str; 8] = [
    "520bb90bb70144",
    "520bb90bb70158ee48",
    "520bb90bb701580000",
    "520bb90bb7014eee48000003e8",
    "520bb90bb7014e000000989680",
    "520bb90bb7014300000000000003e8",
    "520bb90bb7014303b20b8000989680",
    "520bb90bb701430042399d00007724",
];

#[test]
fn rows(rt: HostRuntime) -> Result<(), Fail> {
    let grid = grid(2_001, 1_999)?;
    let mut place = 0;
    for want in &ROWS {
        let text = row(rt.alloc(), &dating_at(place), &grid, 1)?;
        assert!(rt; text.as_str() == *want, "{text}");
        place = place.saturating_add(1);
    }
    Ok(())
}

static GRIDS: [(i64, i64, u8, &str); 4] = [
    (60_000, 59_489, 0, "52ee48ec490044"),
    (-489, -1_000, 1, "5201ff00000144"),
    (-1_000, -1_000, 4, "52000000000444"),
    (2_001, 1_999, 255, "520bb90bb7ff44"),
];

#[test]
fn grids_and_curves(rt: HostRuntime) -> Result<(), Fail> {
    for (older, younger, curve, want) in &GRIDS {
        let grid = grid(*older, *younger)?;
        let text = row(rt.alloc(), &Dating::Free, &grid, *curve)?;
        assert!(rt; text.as_str() == *want, "{text}");
    }
    Ok(())
}

const SITE: &str =
    "Sequence(\"s\"){Boundary(\"S\");Phase(\"p\"){Date(\"A\");C_Date(\"B\",-51);After(\"A\"){R_Date(\"R\",2340,30);};};Boundary(\"E\");};Before(){C_Date(\"N\",-61,5);};Date(\"L\");";

// the same with other names
const RENAMED: &str =
    "Sequence(){Boundary(\"x\");Phase(\"s\"){Date(\"x\");C_Date(\"x\",-51);After(){R_Date(\"y\",2340,30);};};Boundary(\"x\");};Before(\"b\"){C_Date(\"x\",-61,5);};Date(\"M\");";

static TABLES: [&str; 11] = [
    "540bb90bb7045300034250000344580bb841000143004239200000753042",
    "540bb90bb70442",
    "540bb90bb70450000344580bb8410001430042392000007530",
    "540bb90bb70444",
    "540bb90bb704580bb8",
    "540bb90bb704410001430042392000007530",
    "540bb90bb704430042392000007530",
    "540bb90bb70442",
    "540bb90bb7044600014e0bc200001388",
    "540bb90bb7044e0bc200001388",
    "540bb90bb70444",
];

#[test]
fn tables(rt: HostRuntime) -> Result<(), Fail> {
    let mut place = 0;
    for want in &TABLES {
        let text = table(rt.alloc(), SITE, place, 4)?;
        assert!(rt; text.as_str() == *want, "{text}");
        place = place.saturating_add(1);
    }
    Ok(())
}

static MARGINALS: [(&str, u32, &str); 4] = [
    (
        SITE,
        0,
        "4d0bb90bb7045000035300034250000344580bb8410001430042392000007530424600014e0bc200001388440000",
    ),
    (
        SITE,
        6,
        "4d0bb90bb7045000035300034250000344580bb8410001430042392000007530424600014e0bc200001388440006",
    ),
    (
        RENAMED,
        6,
        "4d0bb90bb7045000035300034250000344580bb8410001430042392000007530424600014e0bc200001388440006",
    ),
    ("Date(\"A\");", 0, "4d0bb90bb704500001440000"),
];

#[test]
fn marginals(rt: HostRuntime) -> Result<(), Fail> {
    for (model, event, want) in &MARGINALS {
        let text = marginal(rt.alloc(), model, *event, 4)?;
        assert!(rt; text.as_str() == *want, "{text}");
    }
    Ok(())
}

// what the code of the widest model is put together from, and how often
static WIDEST: [(&str, u32); 5] = [
    ("4d0bb90bb700500091", 1),
    ("500001", 15),
    ("44", 100),
    ("410000", 45),
    ("0063", 1),
];

fn repeated(alloc: Global) -> Result<String, Fail> {
    let mut text = String::new(alloc);
    for (piece, count) in &WIDEST {
        for _ in 0..*count {
            text.push_str(piece)?;
        }
    }
    Ok(text)
}

#[test]
fn limits(rt: HostRuntime) -> Result<(), Fail> {
    let model = widest(rt.alloc())?;
    let code = code_in(rt.alloc(), &model, 99, 0)?;
    let text = text_of(rt.alloc(), &code)?;
    assert!(rt; text.as_str() == repeated(rt.alloc())?.as_str(), "{text}");
    Ok(())
}

#[test]
fn comparisons(rt: HostRuntime) -> Result<(), Fail> {
    let code = code_of(rt.alloc(), SITE, 2, 1)?;
    assert!(rt; code == code.copy(rt.alloc())?);
    assert!(rt; code == code_of(rt.alloc(), RENAMED, 2, 1)?);
    assert!(rt; code != code_of(rt.alloc(), SITE, 3, 1)?);
    assert!(rt; code != code_of(rt.alloc(), SITE, 2, 2)?);
    Ok(())
}
