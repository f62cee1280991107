//! Places and limits: where a statement may begin.
ghost use Rattle.std.specs.Prelude.{◌≡◌, Some, None};
ghost use Rattle.cg_grammar.specs.Done.{is_over_at, event_limit, group_limit, curve_limit, holds_boundary, is_top, is_script, barred_at};

use crate::command::{Base, Command};
use crate::fault::{CqlCause, CqlLimit};
use cg_model::GroupKind;

const MAX_EVENTS: u32 = 100;

const MAX_GROUPS: u32 = 60;

const MAX_DEPTH: usize = 16;

/// Whether the one statement that stands alone was read, if there is a statement.
pub fn is_over_at(base: Base, parent: Option<GroupKind>, started: bool) -> bool
    ensures { result ≡ is_over_at base parent started }
{
    match (base, parent) {
        (Base::Single, None) => started,
        _ => false,
    }
}

fn event_limit(depth: usize, events: u32) -> Option<CqlCause>
    ensures { result ≡ event_limit depth events }
{
    if events >= MAX_EVENTS {
        Some(CqlCause::Limit(CqlLimit::Events))
    } else if depth >= MAX_DEPTH {
        Some(CqlCause::Limit(CqlLimit::Depth))
    } else {
        None
    }
}

fn group_limit(depth: usize, groups: u32) -> Option<CqlCause>
    ensures { result ≡ group_limit depth groups }
{
    if groups >= MAX_GROUPS {
        Some(CqlCause::Limit(CqlLimit::Groups))
    } else if depth >= MAX_DEPTH {
        Some(CqlCause::Limit(CqlLimit::Depth))
    } else {
        None
    }
}

/// Why a curve may not be named, where one is named.
pub fn curve_limit(named: bool) -> Option<CqlCause>
    ensures { result ≡ curve_limit named }
{
    if named {
        Some(CqlCause::Limit(CqlLimit::Curves))
    } else {
        None
    }
}

fn holds_boundary(base: Base, parent: Option<GroupKind>) -> bool
    ensures { result ≡ holds_boundary base parent }
{
    match parent {
        Some(GroupKind::Sequence) => true,
        Some(_) => false,
        None => matches!(base, Base::Single),
    }
}

fn is_top(base: Base, parent: Option<GroupKind>) -> bool
    ensures { result ≡ is_top base parent }
{
    match (base, parent) {
        (Base::Script | Base::Plot, None) => true,
        _ => false,
    }
}

fn is_script(base: Base, parent: Option<GroupKind>) -> bool
    ensures { result ≡ is_script base parent }
{
    match (base, parent) {
        (Base::Script, None) => true,
        _ => false,
    }
}

/// Why a command may not begin there: its place, or the first limit that it passes. `None` comes exactly where it may.
///
/// `parent` is the innermost open group, `depth` the number of open groups, `events` and `groups` how many began so
/// far, and `named` whether a curve is named.
pub fn barred_at(
    base: Base,
    parent: Option<GroupKind>,
    depth: usize,
    events: u32,
    groups: u32,
    named: bool,
    command: Command,
) -> Option<CqlCause>
    ensures { result ≡ barred_at base parent depth events groups named command }
{
    match command {
        Command::Boundary => {
            if holds_boundary(base, parent) {
                event_limit(depth, events)
            } else {
                Some(CqlCause::Place)
            }
        }
        Command::Group(_) => group_limit(depth, groups),
        Command::Plot => {
            if is_script(base, parent) {
                None
            } else {
                Some(CqlCause::Place)
            }
        }
        Command::Options => {
            if is_top(base, parent) {
                None
            } else {
                Some(CqlCause::Place)
            }
        }
        Command::Curve => {
            if is_top(base, parent) {
                curve_limit(named)
            } else {
                Some(CqlCause::Place)
            }
        }
        Command::Date | Command::CDate | Command::RDate => event_limit(depth, events),
    }
}
