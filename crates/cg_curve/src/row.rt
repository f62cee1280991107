ghost use Rattle.std.specs.Prelude.{◌≡◌, ◌≤◌, length};
ghost use Rattle.std.specs.List.{prefix_len};
ghost use Rattle.cg_curve.specs.Lines.{is_blank, is_separator};
ghost use Rattle.cg_curve.specs.Reading.{in_field, first_field, after_field};
ghost use Rattle.cg_curve.specs.Rows.{whole_row, row_of};

use crate::lines::is_blank;
use cg_num::read_decimal;
use std::marker::Model;

/// A year in cal BP, and there the radiocarbon age and its one sigma in thousandths of a year.
#[derive(Clone, Copy, Debug, PartialEq, Eq)]
pub(crate) struct Row {
    pub(crate) year: i64,
    pub(crate) age: i64,
    pub(crate) sigma: i64,
}

impl Model for Row {
    ghost use Rattle.cg_meaning.specs.Curve as meaning;

    ghost Value = { meaning.Row };

    ghost view = { λ r. record { year = r.year; age = r.age; sigma = r.sigma } };

    ghost inverse = { λ r. record { year = r.year; age = r.age; sigma = r.sigma } };
}

fn is_separator(byte: u8) -> bool
    ensures { result ≡ is_separator byte }
{
    byte == b',' || is_blank(byte)
}

fn separators_len(text: &[u8]) -> usize
    ensures value { result ≡ prefix_len is_separator text.now }
    ensures within { result ≤ length text.now }
{
    text.iter().take_while(|c| is_separator(**c)).count()
}

fn field_len(text: &[u8]) -> usize
    ensures value { result ≡ prefix_len in_field text.now }
    ensures within { result ≤ length text.now }
{
    text.iter().take_while(|c| !is_separator(**c)).count()
}

/// The first field of a text, and what comes behind it.
#[tactic(auto, unfolding(crate::specs::Reading::first_field, crate::specs::Reading::after_field))]
fn next_field(text: &[u8]) -> (&[u8], &[u8])
    ensures field { result.0.now ≡ first_field text.now }
    ensures rest { result.1.now ≡ after_field text.now }
{
    let (_, from) = text.split_at(separators_len(text));
    from.split_at(field_len(from))
}

/// The row of three numbers of thousandths, if the first is whole.
fn whole_row(bp: i64, age: i64, sigma: i64) -> Option<Row>
    ensures { result ≡ whole_row bp age sigma }
{
    if bp % 1000 != 0 {
        return None;
    }
    Some(Row {
        year: bp / 1000,
        age,
        sigma,
    })
}

/// The row that a line says: its first three fields are decimals, and its cal BP is whole.
#[tactic(auto, unfolding(crate::specs::Reading::first_row), using(crate::proofs::FieldLemmas::row_of_is_first))]
pub(crate) fn row_of(line: &[u8]) -> Option<Row>
    ensures { result ≡ row_of line.now }
{
    let (bp, rest) = next_field(line);
    let (age, rest) = next_field(rest);
    let (sigma, _) = next_field(rest);
    let bp = read_decimal(bp).ok()?;
    let age = read_decimal(age).ok()?;
    let sigma = read_decimal(sigma).ok()?;
    whole_row(bp.thousandths(), age.thousandths(), sigma.thousandths())
}
