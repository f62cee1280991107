//! Why files are refused.
ghost use Rattle.std.specs.Prelude.{◌≡◌, ◌++◌, OnOk};
ghost use Rattle.cg_report.specs.Status.{curve_text, cql_limit_text, cql_text, script_limit_text, script_text};
ghost use Rattle.cg_report.specs.Status.{file_cause_text};

use crate::file::FileCause;
use cg_curve::CurveFault;
use cg_grammar::{CqlCause, CqlLimit};
use cg_model::Name;
use cg_num::NoMemory;
use cg_script::{ScriptCause, ScriptLimit};

/// Appends why a file is refused.
pub(crate) fn push_file_cause(cause: &FileCause, text: &mut Vec<u8>) -> Result<(), NoMemory>
    ensures { OnOk result (text.new.items ≡ text.old.items ++ file_cause_text cause.now) }
{
    match cause {
        FileCause::TooLong => push(b"too long", text),
        FileCause::UnknownCurve => push(b"unknown curve", text),
        FileCause::Curve(fault) => push(curve_text(*fault), text),
        FileCause::Cql(fault) => push_cql(fault, text),
        FileCause::Script(fault) => push_script(fault, text),
    }
}

fn push_script(cause: &ScriptCause, text: &mut Vec<u8>) -> Result<(), NoMemory>
    ensures { OnOk result (text.new.items ≡ text.old.items ++ script_text cause.now) }
{
    match cause {
        ScriptCause::Unknown(word) => push_word(b"unknown ", word, text),
        ScriptCause::Syntax => push(b"syntax", text),
        ScriptCause::Statement(fault) => {
            push(b"statement: ", text)?;
            push_cql(fault, text)
        }
        ScriptCause::Limit(limit) => push(script_limit_text(*limit), text),
        ScriptCause::NoMemory => push(b"out of memory", text),
    }
}

fn push_cql(cause: &CqlCause, text: &mut Vec<u8>) -> Result<(), NoMemory>
    ensures { OnOk result (text.new.items ≡ text.old.items ++ cql_text cause.now) }
{
    match cause {
        CqlCause::Token => push(b"token", text),
        CqlCause::Syntax => push(b"syntax", text),
        CqlCause::Command(word) => push_word(b"command ", word, text),
        CqlCause::Option(word) => push_word(b"option ", word, text),
        CqlCause::Place => push(b"place", text),
        CqlCause::Argument => push(b"argument", text),
        CqlCause::Limit(limit) => push(cql_limit_text(*limit), text),
        CqlCause::NoMemory => push(b"out of memory", text),
    }
}

fn push_word(label: &[u8], word: &Name, text: &mut Vec<u8>) -> Result<(), NoMemory>
    ensures { OnOk result (text.new.items ≡ text.old.items ++ (label.now ++ word.now)) }
{
    push(label, text)?;
    push(word.text().as_bytes(), text)
}

fn push(piece: &[u8], text: &mut Vec<u8>) -> Result<(), NoMemory>
    ensures { OnOk result (text.new.items ≡ text.old.items ++ piece.now) }
{
    text.extend_from_slice(piece)?;
    Ok(())
}

fn curve_text(fault: CurveFault) -> &'static [u8]
    ensures { result.now ≡ curve_text fault }
{
    match fault {
        CurveFault::BadRow(_) => b"bad row",
        CurveFault::OutOfRange(_) => b"out of range",
        CurveFault::Order(_) => b"order",
        CurveFault::Gap(_) => b"gap",
        CurveFault::TooMany(_) => b"too many",
        CurveFault::TooFew => b"too few",
        CurveFault::NoMemory => b"out of memory",
    }
}

fn cql_limit_text(limit: CqlLimit) -> &'static [u8]
    ensures { result.now ≡ cql_limit_text limit }
{
    match limit {
        CqlLimit::Events => b"limit events",
        CqlLimit::Groups => b"limit groups",
        CqlLimit::Depth => b"limit depth",
        CqlLimit::Curves => b"limit curves",
    }
}

fn script_limit_text(limit: ScriptLimit) -> &'static [u8]
    ensures { result.now ≡ script_limit_text limit }
{
    match limit {
        ScriptLimit::Commands => b"limit commands",
        ScriptLimit::Prints => b"limit prints",
        ScriptLimit::Years => b"limit years",
    }
}
