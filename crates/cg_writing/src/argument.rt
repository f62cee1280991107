//! What stands between the parentheses of a statement.
ghost use Rattle.std.specs.Prelude.{◌≡◌, ◌++◌, codes, OnOk};
ghost use Rattle.std.specs.Fmt.{signed_decimal};
ghost use Rattle.cg_model.specs.Dating.{dating_of};
ghost use Rattle.cg_writing.specs.Text.{calendar_of, quoted, name_text, word_of_dating, comma_of, values_text};

use cg_model::{Dating, Name};
use cg_num::{NoMemory, Year, write_decimal};
use itoa::Buffer;
use std::alloc::Global;

/// The word of an event with this dating.
pub(crate) fn word_of_dating(dating: &Dating) -> &'static [u8]
    ensures { result.now ≡ word_of_dating (dating_of dating.now) }
{
    match dating {
        Dating::Free => b"Date",
        Dating::Exact(_) | Dating::Normal(_, _) => b"C_Date",
        Dating::Carbon(_, _) => b"R_Date",
    }
}

/// What parts a name from the values of this dating.
pub(crate) fn comma_of(dating: &Dating) -> &'static [u8]
    ensures { result.now ≡ comma_of (dating_of dating.now) }
{
    match dating {
        Dating::Free => b"",
        Dating::Exact(_) | Dating::Normal(_, _) | Dating::Carbon(_, _) => b",",
    }
}

/// Appends the text between quotes.
pub(crate) fn push_quoted(name: &Name, text: &mut Vec<u8>) -> Result<(), NoMemory>
    ensures { OnOk result (text.new.items ≡ text.old.items ++ quoted name.now) }
{
    text.push(b'"')?;
    text.extend_from_slice(name.text().as_bytes())?;
    text.push(b'"')?;
    Ok(())
}

/// Appends a name and what parts it from what follows, or nothing for an empty name.
pub(crate) fn push_name(name: &Name, comma: &[u8], text: &mut Vec<u8>) -> Result<(), NoMemory>
    ensures { OnOk result (text.new.items ≡ text.old.items ++ name_text name.now comma.now) }
{
    if name.text().is_empty() {
        return Ok(());
    }
    push_quoted(name, text)?;
    text.extend_from_slice(comma)?;
    Ok(())
}

/// The calendar year: AD years are positive, BC years negative.
fn calendar_of(year: &Year) -> i32
    ensures { result ≡ calendar_of year.now }
{
    let bp = year.bp();
    if bp <= 1_949 { 1_950 - bp } else { 1_949 - bp }
}

fn push_year(year: &Year, text: &mut Vec<u8>) -> Result<(), NoMemory>
    ensures { OnOk result (text.new.items ≡ text.old.items ++ signed_decimal (calendar_of year.now)) }
{
    let mut digits = Buffer::new();
    text.extend_from_slice(digits.format(calendar_of(year)).as_bytes())?;
    Ok(())
}

/// Appends the values of a dating: a calendar year, and ages and errors in years without a needless zero.
pub(crate) fn push_values(
    alloc: Global,
    dating: &Dating,
    text: &mut Vec<u8>,
) -> Result<(), NoMemory>
    ensures { OnOk result (text.new.items ≡ text.old.items ++ values_text (dating_of dating.now)) }
{
    match dating {
        Dating::Free => Ok(()),
        Dating::Exact(year) => push_year(year, text),
        Dating::Normal(year, error) => {
            push_year(year, text)?;
            text.push(b',')?;
            write_decimal(alloc, error, text)
        }
        Dating::Carbon(age, error) => {
            write_decimal(alloc, age, text)?;
            text.push(b',')?;
            write_decimal(alloc, error, text)
        }
    }
}
