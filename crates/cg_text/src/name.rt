//! The names of models and curves, and the names of nodes as owned values.
ghost use Rattle.std.specs.Prelude.{◌≡◌, ◌↔◌, ◌≤◌, length, option_map, IfOk, IsTrue};
ghost use Rattle.std.specs.List.{prefix_len, list_all};
ghost use Rattle.cg_text.specs.Names.{is_name_byte, IsName, name_at};

use cg_model::{Name, NameFault};
use cg_num::NoMemory;
use std::alloc::Global;

const MAX_BYTES: usize = 64;

fn is_name_byte(byte: u8) -> bool
    ensures { result ≡ is_name_byte byte }
{
    byte.is_ascii_alphanumeric() || byte == b'_' || byte == b'-' || byte == b'.'
}

fn name_len(bytes: &[u8]) -> usize
    ensures value { result ≡ prefix_len is_name_byte bytes.now }
    ensures within { result ≤ length bytes.now }
{
    bytes.iter().take_while(|c| is_name_byte(**c)).count()
}

fn are_name_bytes(bytes: &[u8]) -> bool
    ensures { result ≡ list_all is_name_byte bytes.now }
{
    bytes.iter().all(|c| is_name_byte(*c))
}

/// Whether the text is a name of 1 to 64 ASCII letters, digits, `_`, `-` or `.`.
pub fn is_name(text: &str) -> bool
    ensures { IsTrue result ↔ IsName text.now }
{
    !text.is_empty() && text.len() <= MAX_BYTES && are_name_bytes(text.as_bytes())
}

/// Such a name in front, with no byte of a name behind it, and what comes after it.
pub fn name_at(bytes: &[u8]) -> Option<(&str, &[u8])>
    ensures { option_map (λ name. (name.0.now, name.1.now)) result ≡ name_at bytes.now }
{
    let len = name_len(bytes);
    if len < 1 || len > MAX_BYTES {
        return None;
    }
    let (name, rest) = bytes.split_at(len);
    match str::from_utf8(name) {
        Ok(name) => Some((name, rest)),
        Err(_) => None,
    }
}

/// A text that is short enough for a name of a chronology, as a value of its own.
pub fn name_of(alloc: Global, text: &str) -> Result<Name, NoMemory>
    requires { length text.now ≤ 120 }
    ensures { IfOk result (λ name. name ≡ text.now) }
{
    match Name::new(alloc, text) {
        Ok(name) => Ok(name),
        Err(NameFault::NoMemory) => Err(NoMemory),
        Err(NameFault::TooLong) => unreachable!(),
    }
}
