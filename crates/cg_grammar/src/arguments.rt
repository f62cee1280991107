//! Arguments: which may come, and which are whole.
ghost use Rattle.std.specs.Prelude.{◌≡◌, codes, pos};
ghost use Rattle.std.specs.Ordering.{int_eq};
ghost use Rattle.std.specs.Str.{str_eq_ignore_ascii_case};
ghost use Rattle.cg_grammar.specs.Arguments.{is_name, has_ending, with_ending, is_file, is_year, is_age, is_error, takes_text, takes_file, goes_on, takes_value, has_error, takes_error, is_whole, may_part, fits, is_call, name_in, file_in, dating_in, year_in};
ghost use Rattle.cg_model.specs.Dating.{dating_of};
ghost use Rattle.cg_grammar.specs.View.{given_of};

use crate::command::Command;

const MAX_BYTES: usize = 120;

/// What stands between the parentheses so far.
#[derive(Clone, Copy)]
pub enum Given<'a> {
    /// No argument.
    Nothing,
    /// A text.
    One(&'a str),
    /// Two texts.
    Two(&'a str, &'a str),
    /// A number of thousandths, behind a text or behind none.
    Value(Option<&'a str>, i64),
    /// The same, and another number of thousandths.
    Values(Option<&'a str>, i64, i64),
}

fn is_name(name: &str) -> bool
    ensures { result ≡ is_name name.now }
{
    let bytes = name.as_bytes();
    bytes.len() <= MAX_BYTES && (bytes.is_empty() || bytes[0] != b'=')
}

fn ends_so(end: &[u8]) -> bool
    ensures { result ≡ str_eq_ignore_ascii_case end.now (codes ".14c") }
{
    end.eq_ignore_ascii_case(b".14c")
}

#[tactic(auto, unfolding(crate::specs::Arguments::has_ending))]
/// Whether it ends in `.14c`, ASCII case aside.
pub fn has_ending(name: &[u8]) -> bool
    ensures { result ≡ has_ending name.now }
{
    name.len() >= 4 && ends_so(&name[name.len() - 4..])
}

/// Whether it may name a file of a curve: it has 1 to 120 bytes with the ending `.14c`.
pub fn is_file(name: &str) -> bool
    ensures { result ≡ is_file name.now }
{
    let bytes = name.as_bytes();
    if has_ending(bytes) {
        !bytes.is_empty() && bytes.len() <= MAX_BYTES
    } else {
        !bytes.is_empty() && bytes.len() + 4 <= MAX_BYTES
    }
}

fn is_year(number: i64) -> bool
    ensures { result ≡ is_year number }
{
    number % 1_000 == 0 && number != 0 && number >= -58_051_000 && number <= 2_950_000
}

fn is_age(number: i64) -> bool
    ensures { result ≡ is_age number }
{
    number >= -2_000_000 && number <= 60_000_000
}

fn is_error(number: i64) -> bool
    ensures { result ≡ is_error number }
{
    number >= 1_000 && number <= 10_000_000
}

/// Whether the number is 0.
pub fn is_zero(number: i64) -> bool
    ensures { result ≡ int_eq number (pos 0) }
{
    number == 0
}

/// Whether the text may be the first argument of the command.
pub fn takes_text(command: Command, text: &str) -> bool
    ensures { result ≡ takes_text command text.now }
{
    match command {
        Command::Options => false,
        Command::Curve => is_name(text) || is_file(text),
        _ => is_name(text),
    }
}

/// Whether the text may be its second argument, behind a text.
pub fn takes_file(command: Command, text: &str) -> bool
    ensures { result ≡ takes_file command text.now }
{
    match command {
        Command::Curve => is_file(text),
        _ => false,
    }
}

/// Whether the number of thousandths may be the first number: a year of a C_Date, an age of an R_Date.
pub fn takes_value(command: Command, number: i64) -> bool
    ensures { result ≡ takes_value command number }
{
    match command {
        Command::CDate => is_year(number),
        Command::RDate => is_age(number),
        _ => false,
    }
}

fn has_error(command: Command) -> bool
    ensures { result ≡ has_error command }
{
    matches!(command, Command::CDate | Command::RDate)
}

/// Whether the number of thousandths may be the second: an error, which may be 0 in a C_Date.
pub fn takes_error(command: Command, number: i64) -> bool
    ensures { result ≡ takes_error command number }
{
    match command {
        Command::CDate => is_zero(number) || is_error(number),
        Command::RDate => is_error(number),
        _ => false,
    }
}

fn goes_on(command: Command, text: &str) -> bool
    ensures { result ≡ goes_on command text.now }
{
    match command {
        Command::CDate | Command::RDate => true,
        Command::Curve => is_name(text),
        _ => false,
    }
}

/// Whether a comma may come behind these arguments.
pub fn may_part(command: Command, given: &Given) -> bool
    ensures { result ≡ may_part command (given_of given.now) }
{
    match given {
        Given::One(text) => goes_on(command, text),
        Given::Value(_, _) => has_error(command),
        _ => false,
    }
}

/// Whether the closing parenthesis may come behind these arguments.
pub fn is_whole(command: Command, given: &Given) -> bool
    ensures { result ≡ is_whole command (given_of given.now) }
{
    match command {
        Command::CDate => matches!(given, Given::Value(_, _) | Given::Values(_, _, _)),
        Command::RDate => matches!(given, Given::Values(_, _, _)),
        Command::Curve => match given {
            Given::One(text) => is_file(text),
            Given::Two(_, _) => true,
            _ => false,
        },
        _ => matches!(given, Given::Nothing | Given::One(_)),
    }
}
