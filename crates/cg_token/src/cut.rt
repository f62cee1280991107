//! The piece in front of bytes.
ghost use Rattle.std.specs.Prelude.{◌≡◌, ℕ, ◌+◌, ◌<◌, ◌≤◌, ◌^◌, ◌∷◌, length, drop, take, slice_index, suc, option_map, IfSome, Some, None, if◌then◌else◌};
ghost use Rattle.std.specs.Str.{is_utf8};
ghost use Rattle.std.specs.List.{prefix_len};
ghost use Rattle.cg_token.specs.Cut.{is_blank, begins_word, in_word, begins_number, in_number, in_text, in_line, open_len, comment_at, text_at, number_at, mark_at, cut_at, cut};
ghost use Rattle.cg_token.specs.View.{IsCut};

use crate::token::{Mark, Token};
use cg_num::read_decimal;

fn is_blank(byte: u8) -> bool
    ensures { result ≡ is_blank byte }
{
    matches!(byte, b' ' | b'\t' | b'\r' | b'\n')
}

fn begins_word(byte: u8) -> bool
    ensures { result ≡ begins_word byte }
{
    byte.is_ascii_alphabetic() || byte == b'_'
}

fn begins_number(byte: u8) -> bool
    ensures { result ≡ begins_number byte }
{
    byte == b'+' || byte == b'-' || byte.is_ascii_digit()
}

fn word_len(bytes: &[u8]) -> usize
    ensures value { result ≡ prefix_len in_word bytes.now }
    ensures within { result ≤ length bytes.now }
{
    bytes
        .iter()
        .take_while(|c| c.is_ascii_alphanumeric() || **c == b'_')
        .count()
}

fn number_len(bytes: &[u8]) -> usize
    ensures value { result ≡ prefix_len in_number bytes.now }
    ensures within { result ≤ length bytes.now }
{
    bytes
        .iter()
        .take_while(|c| c.is_ascii_digit() || **c == b'.')
        .count()
}

fn text_len(bytes: &[u8]) -> usize
    ensures value { result ≡ prefix_len in_text bytes.now }
    ensures within { result ≤ length bytes.now }
{
    bytes
        .iter()
        .take_while(|c| **c >= 32 && !(**c == b'"' || **c == 127))
        .count()
}

fn line_len(bytes: &[u8]) -> usize
    ensures value { result ≡ prefix_len in_line bytes.now }
    ensures within { result ≤ length bytes.now }
{
    bytes.iter().take_while(|c| **c != b'\n').count()
}

fn byte_at(bytes: &[u8], place: usize) -> u8
    ensures { result ≡ slice_index bytes.now place }
{
    bytes.get(place).copied().unwrap_or(0)
}

/// How many bytes stand before the first `*/`, or all of them.
fn open_len(bytes: &[u8]) -> usize
    requires { length bytes.now < 2 ^ 32 }
    ensures value { result ≡ open_len bytes.now }
    ensures within { result ≤ length bytes.now }
    ensures room { result < length bytes.now → result + 2 ≤ length bytes.now }
{
    for (i, byte) in bytes.iter().enumerate() {
        if *byte == b'*' && byte_at(bytes, i + 1) == b'/' {
            return i;
        }
    }
    bytes.len()
}

fn comment_at(bytes: &[u8]) -> (Token<'static>, usize)
    requires { length bytes.now < 2 ^ 32 }
    ensures value { IsCut result (comment_at bytes.now) }
    ensures within { result.1 ≤ length bytes.now + 1 }
{
    match bytes {
        [b'/', rest @ ..] => (Token::Gap, line_len(rest) + 2),
        [b'*', rest @ ..] => {
            let open = open_len(rest);
            if open < rest.len() {
                (Token::Gap, open + 4)
            } else {
                (Token::Unreadable, 0)
            }
        }
        _ => (Token::Unreadable, 0),
    }
}

/// The bytes as a text, if they are UTF-8.
fn utf8_of(bytes: &[u8]) -> Option<&str>
    ensures { option_map (λ text. text.now) result ≡ (if is_utf8 bytes.now then Some bytes.now else None) }
{
    match str::from_utf8(bytes) {
        Ok(text) => Some(text),
        Err(_) => None,
    }
}

fn text_at(bytes: &[u8]) -> (Token<'_>, usize)
    requires { length bytes.now < 2 ^ 32 }
    ensures value { IsCut result (text_at bytes.now) }
    ensures within { result.1 ≤ length bytes.now + 1 }
{
    let len = text_len(bytes);
    if byte_at(bytes, len) != b'"' {
        return (Token::Unreadable, 0);
    }
    match utf8_of(&bytes[..len]) {
        Some(text) => (Token::Text(text), len + 2),
        None => (Token::Unreadable, 0),
    }
}

fn number_at(bytes: &[u8]) -> (Token<'static>, usize)
    requires some { 0 < length bytes.now }
    requires few { length bytes.now < 2 ^ 32 }
    ensures value { IsCut result (number_at (slice_index bytes.now 0) (drop 1 bytes.now)) }
    ensures within { result.1 ≤ length bytes.now }
{
    let len = number_len(&bytes[1..]) + 1;
    match read_decimal(&bytes[..len]) {
        Ok(number) => (Token::Number(number.thousandths()), len),
        Err(_) => (Token::Unreadable, 0),
    }
}

fn mark_at(byte: u8) -> (Token<'static>, usize)
    ensures value { IsCut result (mark_at byte) }
    ensures within { result.1 ≤ 1 }
{
    match byte {
        b'(' => (Token::Mark(Mark::ParenOpen), 1),
        b')' => (Token::Mark(Mark::ParenClose), 1),
        b'{' => (Token::Mark(Mark::BraceOpen), 1),
        b'}' => (Token::Mark(Mark::BraceClose), 1),
        b',' => (Token::Mark(Mark::Comma), 1),
        b';' => (Token::Mark(Mark::Semicolon), 1),
        b'=' => (Token::Mark(Mark::Equals), 1),
        _ => (Token::Unreadable, 0),
    }
}

/// The piece in front, and how many bytes it has.
#[tactic(auto, unfolding(crate::specs::Cut::cut))]
pub(crate) fn cut(bytes: &[u8]) -> (Token<'_>, usize)
    requires { length bytes.now < 2 ^ 32 }
    ensures value { IsCut result (cut bytes.now) }
    ensures within { result.1 ≤ length bytes.now }
{
    let [first, rest @ ..] = bytes else {
        return (Token::End, 0);
    };
    if is_blank(*first) {
        return (Token::Gap, 1);
    }
    if begins_word(*first) {
        let len = word_len(rest) + 1;
        return (Token::Word(&bytes[..len]), len);
    }
    if begins_number(*first) {
        return number_at(bytes);
    }
    if *first == b'"' {
        return text_at(rest);
    }
    if *first == b'/' {
        return comment_at(rest);
    }
    mark_at(*first)
}
