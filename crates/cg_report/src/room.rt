//! Lines for which there is room. They take no memory.
ghost use Rattle.std.specs.Prelude.{◌≡◌, ◌≤◌, ◌+◌, ◌++◌, length, decimal, codes, vec_len, vec_capacity};
ghost use Rattle.std.specs.Fmt.{signed_decimal};
ghost use Rattle.cg_edit.specs.Plain.{kind_in};
ghost use Rattle.cg_report.specs.Cause.{cause_in};
ghost use Rattle.cg_report.specs.Texts.{line, refused_line, cause_text, kind_text, limit_text};
ghost use Rattle.cg_report.specs.Transcript.{last_line};

use crate::cause::SessionCause;
use cg_edit::Kind;
use cg_model::Limit;
use itoa::Buffer;

/// Writes the line of a refusal, by the line of the script. It has at most 64 bytes.
pub fn write_refusal(cause: &SessionCause, line: u32, out: &mut Vec<u8>)
    requires { vec_len out.old + 64 ≤ vec_capacity out.old }
    ensures items { out.new.items ≡ out.old.items ++ refused_line line (cause_in cause.now) }
    ensures len { vec_len out.new ≤ vec_len out.old + 64 }
    ensures capacity { vec_capacity out.old ≤ vec_capacity out.new }
{
    let mut digits = Buffer::new();
    write(b"refused ", out);
    write(digits.format(line).as_bytes(), out);
    write(b" ", out);
    write_cause(cause, out);
    write(b"\n", out);
}

/// Writes a line of a label and a number.
pub fn write_number(label: &[u8], number: u32, out: &mut Vec<u8>)
    requires { vec_len out.old + (length label.now + 11) ≤ vec_capacity out.old }
    ensures items { out.new.items ≡ out.old.items ++ line (label.now ++ decimal number) }
    ensures len { vec_len out.new ≤ vec_len out.old + (length label.now + 11) }
    ensures capacity { vec_capacity out.old ≤ vec_capacity out.new }
{
    let mut digits = Buffer::new();
    write(label, out);
    write(digits.format(number).as_bytes(), out);
    write(b"\n", out);
}

/// Writes the last line of a session that did all of its script, or that want of memory stopped. It has at most 33
/// bytes.
pub fn write_last(stopped: bool, session: u32, out: &mut Vec<u8>)
    requires { vec_len out.old + 33 ≤ vec_capacity out.old }
    ensures items { out.new.items ≡ out.old.items ++ last_line stopped session }
    ensures len { vec_len out.new ≤ vec_len out.old + 33 }
    ensures capacity { vec_capacity out.old ≤ vec_capacity out.new }
{
    let mut digits = Buffer::new();
    let number = digits.format(session).as_bytes();
    if stopped {
        write(b"stopped ", out);
        write(number, out);
        write(b" out of memory\n", out);
    } else {
        write(b"end ", out);
        write(number, out);
        write(b"\n", out);
    }
}

fn write_cause(cause: &SessionCause, out: &mut Vec<u8>)
    requires { vec_len out.old + 35 ≤ vec_capacity out.old }
    ensures items { out.new.items ≡ out.old.items ++ cause_text (cause_in cause.now) }
    ensures len { vec_len out.new ≤ vec_len out.old + 35 }
    ensures capacity { vec_capacity out.old ≤ vec_capacity out.new }
{
    match cause {
        SessionCause::NotOpen => write(b"not open", out),
        SessionCause::NoGrid => write(b"no grid", out),
        SessionCause::GridLimit(cells) => write_signed(b"grid limit ", *cells, out),
        SessionCause::NoName => write(b"no name", out),
        SessionCause::Ambiguous(count) => write_count(b"ambiguous ", *count, out),
        SessionCause::WrongKind(kind) => write_kind(*kind, out),
        SessionCause::Limit(limit) => write(limit_text(*limit), out),
        SessionCause::NoModel => write(b"no model", out),
        SessionCause::NoVersion(count) => write_count(b"no version ", *count, out),
        SessionCause::NoParent => write(b"no parent", out),
        SessionCause::Moved(head) => write_count(b"moved v", *head, out),
        SessionCause::NoCurve => write(b"no curve", out),
        SessionCause::Uncovered(year) => write_signed(b"uncovered ", i64::from(year.bp()), out),
        SessionCause::Far(year) => write_signed(b"far date ", i64::from(year.bp()), out),
    }
}

fn write_signed(label: &[u8], number: i64, out: &mut Vec<u8>)
    requires room { vec_len out.old + 35 ≤ vec_capacity out.old }
    requires short { length label.now ≤ 15 }
    ensures items { out.new.items ≡ out.old.items ++ (label.now ++ signed_decimal number) }
    ensures len { vec_len out.new ≤ vec_len out.old + 35 }
    ensures capacity { vec_capacity out.old ≤ vec_capacity out.new }
{
    let mut digits = Buffer::new();
    write(label, out);
    write(digits.format(number).as_bytes(), out);
}

fn write_count(label: &[u8], number: u32, out: &mut Vec<u8>)
    requires room { vec_len out.old + 35 ≤ vec_capacity out.old }
    requires short { length label.now ≤ 20 }
    ensures items { out.new.items ≡ out.old.items ++ (label.now ++ decimal number) }
    ensures len { vec_len out.new ≤ vec_len out.old + 35 }
    ensures capacity { vec_capacity out.old ≤ vec_capacity out.new }
{
    let mut digits = Buffer::new();
    write(label, out);
    write(digits.format(number).as_bytes(), out);
}

fn write_kind(kind: Kind, out: &mut Vec<u8>)
    requires { vec_len out.old + 35 ≤ vec_capacity out.old }
    ensures items { out.new.items ≡ out.old.items ++ (codes "wrong kind " ++ kind_text (kind_in kind)) }
    ensures len { vec_len out.new ≤ vec_len out.old + 35 }
    ensures capacity { vec_capacity out.old ≤ vec_capacity out.new }
{
    write(b"wrong kind ", out);
    write(kind_text(kind), out);
}

// Writes where there is room.
fn write(text: &[u8], out: &mut Vec<u8>)
    requires { vec_len out.old + length text.now ≤ vec_capacity out.old }
    ensures items { out.new.items ≡ out.old.items ++ text.now }
    ensures len { vec_len out.new ≡ vec_len out.old + length text.now }
    ensures capacity { vec_capacity out.old ≤ vec_capacity out.new }
{
    let Ok(()) = out.extend_from_slice(text) else {
        unreachable!();
    };
}

fn limit_text(limit: Limit) -> &'static [u8]
    ensures text { result.now ≡ limit_text limit }
    ensures short { length result.now ≤ 20 }
{
    match limit {
        Limit::Events => b"limit events",
        Limit::Groups => b"limit groups",
        Limit::Depth => b"limit depth",
    }
}

fn kind_text(kind: Kind) -> &'static [u8]
    ensures text { result.now ≡ kind_text (kind_in kind) }
    ensures short { length result.now ≤ 20 }
{
    match kind {
        Kind::Leaf => b"Leaf",
        Kind::Boundary => b"Boundary",
        Kind::Sequence => b"Sequence",
        Kind::Phase => b"Phase",
        Kind::After => b"After",
        Kind::Before => b"Before",
    }
}
