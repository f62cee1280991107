ghost use Rattle.std.specs.Prelude.{◌≡◌, ◌+◌, ◌<◌, ◌≤◌, ◌++◌, IfOk, OnOk, OnErr};
ghost use Rattle.cg_num.specs.Written.{decimal_text, fraction_text, fraction_len, WrittenIsRead, ShortestIsWritten};

use crate::decimal::Decimal;
use crate::no_memory::NoMemory;
use itoa::Buffer;
use std::alloc::Global;

/// Appends the number in decimal digits, as `-50.5`: no needless zeros, and no point for a whole
/// number. `read_decimal` reads the same number from it, and from no shorter text.
///
/// `NoMemory` leaves `out` as it was.
pub fn write_decimal(alloc: Global, number: &Decimal, out: &mut Vec<u8>) -> Result<(), NoMemory>
    ensures ok { OnOk result (out.new.items ≡ out.old.items ++ decimal_text number.now) }
    ensures err { OnErr result (out.new.items ≡ out.old.items) }
{
    let text = text_of(alloc, number)?;
    out.extend_from_slice(text.as_slice())?;
    Ok(())
}

/// The law that what is written of a number is read as the same number. Does nothing.
pub fn what_is_written_is_read()
    ensures { WrittenIsRead }
{}

/// The law that no shorter text than the written one is read as the number. Does nothing.
pub fn what_is_written_is_shortest()
    ensures { ShortestIsWritten }
{}

#[tactic(auto, unfolding(crate::specs::Written::decimal_text))]
fn text_of(alloc: Global, number: &Decimal) -> Result<Vec<u8>, NoMemory>
    ensures { IfOk result (λ text. text.items ≡ decimal_text number.now) }
{
    let thousandths = number.thousandths();
    let magnitude = thousandths.unsigned_abs();
    let mut digits = Buffer::new();
    let mut text = Vec::new(alloc);
    if thousandths < 0 {
        text.push(b'-')?;
    }
    text.extend_from_slice(digits.format(magnitude / 1000).as_bytes())?;
    push_fraction(magnitude % 1000, &mut text)?;
    Ok(text)
}

/// Appends a point and the decimals, or nothing for no thousandths.
fn push_fraction(thousandths: u64, text: &mut Vec<u8>) -> Result<(), NoMemory>
    requires { thousandths < 1000 }
    ensures { OnOk result (text.new.items ≡ text.old.items ++ fraction_text thousandths) }
{
    let decimals = [
        b'.',
        digit(thousandths / 100),
        digit(thousandths / 10 % 10),
        digit(thousandths % 10),
    ];
    text.extend_from_slice(&decimals[..fraction_len(thousandths)])?;
    Ok(())
}

fn digit(value: u64) -> u8
    requires { value < 10 }
    ensures { result ≡ 48 + value }
{
    b'0' + value as u8
}

fn fraction_len(thousandths: u64) -> usize
    ensures value { result ≡ fraction_len thousandths }
    ensures within { result ≤ 4 }
{
    if thousandths == 0 {
        0
    } else if thousandths % 100 == 0 {
        2
    } else if thousandths % 10 == 0 {
        3
    } else {
        4
    }
}
