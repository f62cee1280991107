//! The numbers that fields write.
ghost use Rattle.std.specs.Prelude.{◌≡◌, ◌↔◌, ◌≤◌, length, min, IfSome, IsSome, option_map};
ghost use Rattle.std.specs.List.{list_all};
ghost use Rattle.std.specs.Char.{is_ascii_digit};
ghost use Rattle.cg_num.specs.Numeral.{is_negative, without_sign};
ghost use Rattle.cg_num.specs.Decimal.{number_of};
ghost use Rattle.cg_num.specs.Year.{IsYear};
ghost use Rattle.cg_script.specs.Written.{are_digits, is_whole, whole_number, version_of, model_name};

use cg_num::Year;
use cg_text::{name_at, number_of};

const VERSION_DIGITS: usize = 7;

/// Past all years.
const MOST: u32 = 100_000;

fn all_digits(bytes: &[u8]) -> bool
    ensures { result ≡ list_all is_ascii_digit bytes.now }
{
    bytes.iter().all(|c| c.is_ascii_digit())
}

fn are_digits(bytes: &[u8]) -> bool
    ensures { result ≡ are_digits bytes.now }
{
    !bytes.is_empty() && all_digits(bytes)
}

fn without_sign(field: &[u8]) -> &[u8]
    ensures { result.now ≡ without_sign field.now }
{
    match field {
        [b'+' | b'-', digits @ ..] => digits,
        _ => field,
    }
}

fn is_negative(field: &[u8]) -> bool
    ensures { result ≡ is_negative field.now }
{
    field.first() == Some(&b'-')
}

/// Whether a field writes a whole number: digits, behind a sign or none.
pub(crate) fn is_whole(field: &[u8]) -> bool
    ensures { result ≡ is_whole field.now }
{
    are_digits(without_sign(field))
}

/// The number that digits write, or 100,000 where it is more.
fn number_up_to_most(digits: &[u8]) -> u32
    ensures { result ≡ min (number_of digits.now) 100000 }
{
    let mut number = 0;
    for digit in digits {
        number = (number * 10 + u32::from(digit.saturating_sub(b'0'))).min(MOST);
    }
    number
}

/// The year of a field that writes a whole number, and `None` exactly where that is no year.
pub(crate) fn year_of(field: &[u8]) -> Option<Year>
    ensures some { IfSome result (λ year. year ≡ whole_number field.now) }
    ensures range { IsSome result ↔ IsYear (whole_number field.now) }
{
    let number = i64::from(number_up_to_most(without_sign(field)));
    Year::of_bp(if is_negative(field) { -number } else { number })
}

/// The number of a version that a field writes: a `v`, and 1 to 7 digits.
pub(crate) fn version_of(field: &[u8]) -> Option<u32>
    ensures { result ≡ version_of field.now }
{
    match field {
        [b'v', digits @ ..] if are_digits(digits) && digits.len() <= VERSION_DIGITS => {
            Some(number_of(digits))
        }
        _ => None,
    }
}

/// The name of a model that a field is.
pub(crate) fn model_name(field: &[u8]) -> Option<&str>
    ensures value { option_map (λ name. name.now) result ≡ model_name field.now }
    ensures short { IfSome result (λ name. length name.now ≤ 120) }
{
    let (name, rest) = name_at(field)?;
    if !rest.is_empty() {
        return None;
    }
    Some(name)
}
