//! Names between quotes.
ghost use Rattle.std.specs.Prelude.{◌≡◌, ◌<◌, ◌≤◌, ◌-◌, ◌^◌, length, option_map, IfSome};
ghost use Rattle.cg_script.specs.Words.{title_at, quoted_at, sole_name, two_names, name_and_statement};

use crate::field::behind_blank;
use crate::lines::are_blanks;
use cg_token::{Lexer, Token};

const MAX_BYTES: usize = 120;

/// At most 120 bytes between quotes in front, and what stands behind them.
fn title_at(bytes: &[u8]) -> Option<(&str, &[u8])>
    requires { length bytes.now < 2 ^ 32 - 1 }
    ensures value { option_map (λ title. (title.0.now, title.1.now)) result ≡ title_at bytes.now }
    ensures short { IfSome result (λ title. length title.0.now ≤ 120) }
    ensures within { IfSome result (λ title. length title.1.now ≤ length bytes.now) }
{
    let mut lexer = Lexer::new(bytes);
    match lexer.next() {
        Token::Text(title) if title.len() <= MAX_BYTES => Some((title, lexer.rest)),
        _ => None,
    }
}

/// The same where there is a byte between them.
fn quoted_at(bytes: &[u8]) -> Option<(&str, &[u8])>
    requires { length bytes.now < 2 ^ 32 - 1 }
    ensures value { option_map (λ name. (name.0.now, name.1.now)) result ≡ quoted_at bytes.now }
    ensures short { IfSome result (λ name. length name.0.now ≤ 120) }
    ensures within { IfSome result (λ name. length name.1.now ≤ length bytes.now) }
{
    let (name, rest) = title_at(bytes)?;
    if name.is_empty() {
        return None;
    }
    Some((name, rest))
}

/// A name in quotes, and nothing but blanks behind it.
pub(crate) fn sole_name(bytes: &[u8]) -> Option<&str>
    requires { length bytes.now < 2 ^ 32 - 1 }
    ensures value { option_map (λ name. name.now) result ≡ sole_name bytes.now }
    ensures short { IfSome result (λ name. length name.now ≤ 120) }
{
    let (name, rest) = quoted_at(bytes)?;
    if !are_blanks(rest) {
        return None;
    }
    Some(name)
}

/// Two names in quotes, of which the second may be empty, and nothing but blanks behind them.
pub(crate) fn two_names(bytes: &[u8]) -> Option<(&str, &str)>
    requires { length bytes.now < 2 ^ 32 - 1 }
    ensures value { option_map (λ names. (names.0.now, names.1.now)) result ≡ two_names bytes.now }
    ensures first { IfSome result (λ names. length names.0.now ≤ 120) }
    ensures second { IfSome result (λ names. length names.1.now ≤ 120) }
{
    let (name, rest) = quoted_at(bytes)?;
    let (new, rest) = title_at(behind_blank(rest)?)?;
    if !are_blanks(rest) {
        return None;
    }
    Some((name, new))
}

/// A name in quotes, and the statement behind it, which is the rest behind the blanks.
pub(crate) fn name_and_statement(bytes: &[u8]) -> Option<(&str, &[u8])>
    requires { length bytes.now < 2 ^ 32 - 1 }
    ensures value { option_map (λ pair. (pair.0.now, pair.1.now)) result ≡ name_and_statement bytes.now }
    ensures short { IfSome result (λ pair. length pair.0.now ≤ 120) }
    ensures within { IfSome result (λ pair. length pair.1.now ≤ length bytes.now) }
{
    let (name, rest) = quoted_at(bytes)?;
    let statement = behind_blank(rest)?;
    if statement.is_empty() {
        return None;
    }
    Some((name, statement))
}
