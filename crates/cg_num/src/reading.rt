ghost use Rattle.std.specs.Prelude.{◌≡◌, ◌≤◌, ◌<◌, ◌^◌, ◌*◌, ◌+◌, ◌==◌, ◌++◌, ℕ, length, drop, IsTrue, option_map};
ghost use Rattle.std.specs.Char.{is_ascii_digit};
ghost use Rattle.std.specs.List.{prefix_len, list_all};
ghost use Rattle.cg_num.specs.Numeral.{without_sign, is_negative, decimals_of, PartsAreFound};
ghost use Rattle.cg_num.specs.Decimal.{is_zero, number_of, three_of, significant, signed, value_of, decimal_of};

use crate::decimal::{Decimal, NumFault};

/// The number that the text says: an optional sign, digits, and optionally a point with digits.
/// Exact.
///
/// `NotANumber` where the text hasn't that form, else `TooWide` where more than twelve digits stand
/// before the point after leading zeros, else `TooManyDecimals` where a digit other than 0 stands
/// past the third decimal. Takes no memory.
#[tactic(auto, unfolding(crate::specs::Decimal::decimal_of))]
pub fn read_decimal(text: &[u8]) -> Result<Decimal, NumFault>
    ensures { result ≡ decimal_of text.now }
{
    let body = without_sign(text);
    let (whole, rest) = body.split_at(digits_len(body));
    match decimals_of(rest) {
        Some(decimals) if !whole.is_empty() => value_of(is_negative(text), whole, decimals),
        _ => Err(NumFault::NotANumber),
    }
}

/// The law that the parts of a number are found in just those texts that are made of them. Does
/// nothing.
pub fn numerals_have_one_form()
    ensures { PartsAreFound }
{}

fn is_negative(text: &[u8]) -> bool
    ensures { result ≡ is_negative text.now }
{
    text.first() == Some(&b'-')
}

fn without_sign(text: &[u8]) -> &[u8]
    ensures { result.now ≡ without_sign text.now }
{
    match text {
        [b'+' | b'-', body @ ..] => body,
        _ => text,
    }
}

fn digits_len(text: &[u8]) -> usize
    ensures value { result ≡ prefix_len is_ascii_digit text.now }
    ensures within { result ≤ length text.now }
{
    text.iter().take_while(|c| c.is_ascii_digit()).count()
}

/// The digits behind the point, which are none without a point.
fn decimals_of(rest: &[u8]) -> Option<&[u8]>
    ensures { option_map (λ decimals. decimals.now) result ≡ decimals_of rest.now }
{
    match rest {
        [] => Some(rest),
        [b'.', decimals @ ..] if !decimals.is_empty() && are_digits(decimals) => Some(decimals),
        _ => None,
    }
}

fn are_digits(text: &[u8]) -> bool
    ensures { result ≡ list_all is_ascii_digit text.now }
{
    text.iter().all(|c| c.is_ascii_digit())
}

fn value_of(negative: bool, whole: &[u8], decimals: &[u8]) -> Result<Decimal, NumFault>
    requires whole { IsTrue (list_all is_ascii_digit whole.now) }
    requires decimals { IsTrue (list_all is_ascii_digit decimals.now) }
    ensures { result ≡ value_of (record {
      negative = negative;
      whole = whole.now;
      decimals = decimals.now;
    }) }
{
    if significant(whole).len() > 12 {
        return Err(NumFault::TooWide);
    }
    if !ends_in_zeros(decimals) {
        return Err(NumFault::TooManyDecimals);
    }
    Ok(signed(negative, magnitude_of(whole, decimals)))
}

fn ends_in_zeros(decimals: &[u8]) -> bool
    ensures { result ≡ list_all is_zero (drop 3 decimals.now) }
{
    decimals.len() <= 3 || are_zeros(&decimals[3..])
}

fn are_zeros(text: &[u8]) -> bool
    ensures { result ≡ list_all is_zero text.now }
{
    text.iter().all(|c| *c == b'0')
}

/// The number of thousandths, without its sign.
fn magnitude_of(whole: &[u8], decimals: &[u8]) -> u64
    requires few { length (significant whole.now) ≤ 12 }
    requires whole { IsTrue (list_all is_ascii_digit whole.now) }
    requires decimals { IsTrue (list_all is_ascii_digit decimals.now) }
    ensures value { result ≡ number_of (whole.now ++ three_of decimals.now) }
    ensures below { result < 10 ^ 15 }
{
    number_of(significant(whole)) * 1000 + number_of(&three_of(decimals))
}

fn significant(whole: &[u8]) -> &[u8]
    ensures { result.now ≡ significant whole.now }
{
    &whole[zeros_len(whole)..]
}

fn zeros_len(text: &[u8]) -> usize
    ensures value { result ≡ prefix_len is_zero text.now }
    ensures within { result ≤ length text.now }
{
    text.iter().take_while(|c| **c == b'0').count()
}

/// The number that digits write.
fn number_of(digits: &[u8]) -> u64
    requires few { length digits.now ≤ 12 }
    requires digits { IsTrue (list_all is_ascii_digit digits.now) }
    ensures value { result ≡ number_of digits.now }
    ensures below { result < 10 ^ length digits.now }
{
    let mut number = 0;
    for digit in digits {
        number = number * 10 + u64::from(digit - b'0');
    }
    number
}

fn three_of(decimals: &[u8]) -> [u8; 3]
    ensures { result ≡ three_of decimals.now }
{
    let mut three = *b"000";
    let len = decimals.len().min(3);
    three[..len].copy_from_slice(&decimals[..len]);
    three
}

fn signed(negative: bool, magnitude: u64) -> Decimal
    requires { magnitude < 10 ^ 15 }
    ensures { result ≡ signed negative magnitude }
{
    let magnitude = magnitude as i64;
    Decimal::within(if negative { -magnitude } else { magnitude })
}
