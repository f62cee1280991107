//! Seats at one book.
ghost use Rattle.cg_book.specs.Plain.{IsOfVersions};

use crate::tests::texts::{self, model, name};
use cg_book::{Act, Answer, Book, Entry, Event, Journal, Reply};
use cg_cache::Ticket;
use cg_curve::Curves;
use cg_edit::EditFault;
use cg_message::Message;
use cg_versions::StartModels;
use std::alloc::Global;
use std::sync::Arc;
use std::test::Fail;

/// A book with the model `main`, which is one Sequence "s" of the undated events A and B.
fn one_model(alloc: Global) -> Result<Book<Message>, Fail> {
    let tree = model(alloc, "Sequence(\"s\"){Date(\"A\");Date(\"B\");};")?;
    let mut models = StartModels::new(alloc);
    models.push(name(alloc, "main")?, tree)?;
    let curves = Arc::new(alloc, Curves::new(alloc))?;
    Ok(Book::new(alloc, models, 2, curves)?)
}

/// A reply in its plain form, and the number of the version that it hands out, with how many events its tree has.
#[derive(Drop)]
struct Told {
    answer: Option<Answer>,
    version: Option<(u32, u32)>,
}

fn told_by(reply: Reply<Message>) -> Told
    requires { IsOfVersions reply }
{
    let version = match &reply {
        Reply::At(number, tree) | Reply::Made(number, tree) => Some((*number, tree.events())),
        _ => None,
    };
    Told {
        answer: answer_of(reply),
        version,
    }
}

fn answer_of(reply: Reply<Message>) -> Option<Answer>
    requires { IsOfVersions reply }
{
    match reply {
        Reply::At(number, _) => Some(Answer::At(number)),
        Reply::Made(number, _) => Some(Answer::Made(number)),
        Reply::Committed(number) => Some(Answer::Committed(number)),
        Reply::NoModel => Some(Answer::NoModel),
        Reply::NoVersion(count) => Some(Answer::NoVersion(count)),
        Reply::NoParent => Some(Answer::NoParent),
        Reply::Refused(fault) => Some(Answer::Refused(fault)),
        Reply::Moved(head) => Some(Answer::Moved(head)),
        Reply::NoMemory => None,
        Reply::Mine(ticket) => {
            let Ticket { .. } = ticket;
            unreachable!()
        }
        Reply::Hit(_) | Reply::Busy(_) | Reply::NoRoom => unreachable!(),
        Reply::Published | Reply::Returned => unreachable!(),
    }
}

fn head(alloc: Global, book: &mut Book<Message>, seat: u32, model: &str) -> Result<Told, Fail> {
    let event = Event::Head(name(alloc, model)?);
    Ok(told_by(book.apply(alloc, seat, event)))
}

fn change(
    alloc: Global,
    book: &mut Book<Message>,
    seat: u32,
    version: u32,
    line: &str,
) -> Result<Told, Fail> {
    let edit = texts::change(alloc, line)?;
    if version >= book.count() {
        return Err("no such version".into());
    }
    Ok(told_by(book.apply(alloc, seat, Event::Change(version, edit))))
}

fn undo(alloc: Global, book: &mut Book<Message>, seat: u32, version: u32) -> Result<Told, Fail> {
    if version >= book.count() {
        return Err("no such version".into());
    }
    Ok(told_by(book.apply(alloc, seat, Event::Undo(version))))
}

fn commit(
    alloc: Global,
    book: &mut Book<Message>,
    seat: u32,
    model: &str,
    base: u32,
    version: u32,
) -> Result<Told, Fail> {
    let model = name(alloc, model)?;
    if base >= book.count() || version >= book.count() {
        return Err("no such version".into());
    }
    let event = Event::Commit(model, Some(base), version);
    Ok(told_by(book.apply(alloc, seat, event)))
}

/// What a seat asks. Each change is a line of a script.
enum Asked {
    Head(&'static str),
    Take(u32),
    Undo(u32),
    Change(u32, &'static str),
    Commit(&'static str, u32, u32),
}

fn ask(alloc: Global, book: &mut Book<Message>, seat: u32, asked: &Asked) -> Result<Told, Fail> {
    match asked {
        Asked::Head(model) => head(alloc, book, seat, model),
        Asked::Take(version) => Ok(told_by(book.apply(alloc, seat, Event::Take(*version)))),
        Asked::Undo(version) => undo(alloc, book, seat, *version),
        Asked::Change(version, line) => change(alloc, book, seat, *version, line),
        Asked::Commit(model, base, version) => commit(alloc, book, seat, model, *base, *version),
    }
}

/// Two seats change the same version. The second commit is refused, since the head isn't its base any more.
static TWO_SEATS: [(u32, Asked, Answer, Option<(u32, u32)>); 7] = [
    (1, Asked::Head("main"), Answer::At(0), Some((0, 2))),
    (
        1,
        Asked::Change(0, "add \"s\" Date(\"C\");"),
        Answer::Made(1),
        Some((1, 3)),
    ),
    (
        2,
        Asked::Change(0, "add \"s\" Date(\"D\");"),
        Answer::Made(2),
        Some((2, 3)),
    ),
    (1, Asked::Commit("main", 0, 1), Answer::Committed(1), None),
    (2, Asked::Commit("main", 0, 2), Answer::Moved(1), None),
    (2, Asked::Head("main"), Answer::At(1), Some((1, 3))),
    (2, Asked::Undo(2), Answer::At(0), Some((0, 2))),
];

#[test]
fn one_head_two_seats(rt: HostRuntime) -> Result<(), Fail> {
    let mut book = one_model(rt.alloc())?;
    for (seat, asked, answer, version) in &TWO_SEATS {
        let told = ask(rt.alloc(), &mut book, *seat, asked)?;
        assert_eq!(rt; told.answer, Some(*answer));
        assert_eq!(rt; told.version, *version);
    }
    Ok(())
}

/// Version 1 is without A, so a date or a Boundary of the name may come before B, or B may have the name.
static MOVES: [(&str, u32, Option<(u32, u32)>); 8] = [
    ("drop \"A\"", 0, Some((1, 1))),
    ("insert \"B\" Date(\"A\");", 1, Some((2, 2))),
    ("rename \"B\" \"A\"", 1, Some((3, 1))),
    ("insert \"B\" Boundary(\"A\");", 1, Some((4, 2))),
    ("insert \"s\" Boundary(\"A\");", 1, None),
    ("drop \"A\"", 1, None),
    ("insert \"B\" Date(\"A\");", 3, None),
    ("drop \"A\"", 4, Some((5, 1))),
];

#[test]
fn moves(rt: HostRuntime) -> Result<(), Fail> {
    let mut book = one_model(rt.alloc())?;
    for (line, version, want) in &MOVES {
        let told = change(rt.alloc(), &mut book, 1, *version, line)?;
        assert_eq!(rt; told.version, *want, "{line} of {version}");
    }
    Ok(())
}

/// Seat 3 asks for what isn't there, and then for version 0.
static REFUSALS: [(Asked, Answer); 6] = [
    (Asked::Head("other"), Answer::NoModel),
    (Asked::Commit("other", 0, 0), Answer::NoModel),
    (Asked::Undo(0), Answer::NoParent),
    (Asked::Take(7), Answer::NoVersion(1)),
    (
        Asked::Change(0, "add \"t\" Date(\"C\");"),
        Answer::Refused(EditFault::NoName),
    ),
    (Asked::Take(0), Answer::At(0)),
];

#[test]
fn refusals(rt: HostRuntime) -> Result<(), Fail> {
    let mut book = one_model(rt.alloc())?;
    for (asked, answer) in &REFUSALS {
        let told = ask(rt.alloc(), &mut book, 3, asked)?;
        assert_eq!(rt; told.answer, Some(*answer));
    }
    let taken = ask(rt.alloc(), &mut book, 3, &Asked::Take(0))?;
    assert_eq!(rt; taken.version, Some((0, 2)));
    Ok(())
}

/// The journal of a book that was asked for what isn't there.
fn refused(alloc: Global) -> Result<Journal, Fail> {
    let mut book = one_model(alloc)?;
    for (asked, _) in &REFUSALS {
        ask(alloc, &mut book, 3, asked)?;
    }
    book.is_legal();
    Ok(book.into_journal())
}

/// Each refusal is an entry of the journal.
#[test]
fn entries(rt: HostRuntime) -> Result<(), Fail> {
    let journal = refused(rt.alloc())?;
    assert_eq!(rt; journal.entries().len(), REFUSALS.len());
    for (entry, (_, answer)) in journal.entries().iter().zip(&REFUSALS) {
        assert!(rt; entry.seat == 3 && entry.answer == *answer);
    }
    Ok(())
}

#[test]
fn acts(rt: HostRuntime) -> Result<(), Fail> {
    let journal = refused(rt.alloc())?;
    let first = journal.entries().first().ok_or("no entry")?;
    assert!(rt; matches!(&first.act, Act::Head(_)));
    Ok(())
}

#[test]
fn journals(rt: HostRuntime) -> Result<(), Fail> {
    let mut journal = Journal::new(rt.alloc());
    assert!(rt; journal.entries().is_empty());
    journal.push(Entry {
        seat: 1,
        act: Act::Take(0),
        answer: Answer::At(0),
    })?;
    assert_eq!(rt; journal.entries().len(), 1);
    Ok(())
}
