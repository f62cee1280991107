//! Pieces of lines.
ghost use Rattle.std.specs.Prelude.{◌≡◌, ◌++◌, codes, decimal, OnOk};
ghost use Rattle.cg_writing.specs.Text.{quoted};
ghost use Rattle.cg_gen.specs.Texts.{numbered};

use cg_num::NoMemory;
use itoa::Buffer;

/// Appends a number.
pub(crate) fn push_number(number: u32, text: &mut Vec<u8>) -> Result<(), NoMemory>
    ensures { OnOk result (text.new.items ≡ text.old.items ++ decimal number) }
{
    let mut digits = Buffer::new();
    text.extend_from_slice(digits.format(number).as_bytes())?;
    Ok(())
}

/// Appends a letter and a number, between quotes.
pub(crate) fn push_name(letter: &[u8], number: u32, text: &mut Vec<u8>) -> Result<(), NoMemory>
    ensures { OnOk result (text.new.items ≡ text.old.items ++ quoted (numbered letter.now number)) }
{
    text.push(b'"')?;
    text.extend_from_slice(letter)?;
    push_number(number, text)?;
    text.push(b'"')?;
    Ok(())
}
