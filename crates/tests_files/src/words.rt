//! The words of the command line.
use crate::shown::{repeated, words_of};
use cg_words::{NamedFile, Request, request_of};
use std::alloc::Global;
use std::fmt::Write;
use std::test::Fail;

fn write_named(text: &mut String, named: &[NamedFile<'_>]) -> Result<(), Fail> {
    for one in named {
        write!(text, " {}:{}", one.name(), one.file())?;
    }
    Ok(())
}

fn write_sessions(text: &mut String, sessions: &[&str]) -> Result<(), Fail> {
    for session in sessions {
        write!(text, " {session}")?;
    }
    Ok(())
}

fn write_turns(text: &mut String, turns: &[u32]) -> Result<(), Fail> {
    for turn in turns {
        write!(text, " {turn}")?;
    }
    Ok(())
}

/// Writes what is asked for: curves, models, sessions, turns and the size of the cache, with a bar between each two.
fn write_request(text: &mut String, request: &Request<'_>) -> Result<(), Fail> {
    write_named(text, request.curves())?;
    text.push_str(" |")?;
    write_named(text, request.models())?;
    text.push_str(" |")?;
    write_sessions(text, request.sessions())?;
    text.push_str(" |")?;
    write_turns(text, request.turns())?;
    write!(text, " | {}", request.cache())?;
    Ok(())
}

/// What these words ask for.
fn asked(alloc: Global, words: &[String]) -> Result<String, Fail> {
    let mut text = String::new(alloc);
    match request_of(alloc, words)? {
        Some(request) => write_request(&mut text, &request)?,
        None => text.push_str(NOTHING)?,
    }
    Ok(text)
}

const NOTHING: &str = "nothing";

static LINES: [(&str, &str); 75] = [
    ("alone --models a=m --sessions s", " | a:m | s | | 64"),
    // The options come in any order, and the sessions are counted wherever they stand.
    ("alone --sessions s --models a=m", " | a:m | s | | 64"),
    (
        "alone --turns 2,1,2 --sessions s,t --curves c=i,d=j --models a=m,b=n",
        " c:i d:j | a:m b:n | s t | 2 1 2 | 64",
    ),
    (
        "alone --models a=m --curves c=i --sessions s --turns 1",
        " c:i | a:m | s | 1 | 64",
    ),
    // A word behind an option is its list, whatever it says.
    (
        "alone --models a=m --sessions --turns",
        " | a:m | --turns | | 64",
    ),
    // Names differ by their case for models. Files may be equal.
    (
        "alone --models a=m,A=m --sessions s,s",
        " | a:m A:m | s s | | 64",
    ),
    (
        "alone --models A.b_C-9=m --sessions s",
        " | A.b_C-9:m | s | | 64",
    ),
    // A file may hold a further `=`.
    (
        "alone --models a=m=n --sessions x=y",
        " | a:m=n | x=y | | 64",
    ),
    ("alone --models a==m --sessions s", " | a:=m | s | | 64"),
    ("alone --models a=é/m --sessions s", " | a:é/m | s | | 64"),
    // Leading zeros are allowed, up to seven digits.
    (
        "alone --models a=m --sessions s,t --turns 01,0000002",
        " | a:m | s t | 1 2 | 64",
    ),
    (
        "alone --curves a=1,b=2,c=3,d=4 --models a=1,b=2,c=3,d=4,e=5,f=6,g=7,h=8 --sessions 1,2,3,4,5,6,7,8 --turns 8",
        " a:1 b:2 c:3 d:4 | a:1 b:2 c:3 d:4 e:5 f:6 g:7 h:8 | 1 2 3 4 5 6 7 8 | 8 | 64",
    ),
    // The size of the cache is a number by itself.
    (
        "alone --models a=m --sessions s --cache 0",
        " | a:m | s | | 0",
    ),
    (
        "alone --cache 1 --models a=m --sessions s",
        " | a:m | s | | 1",
    ),
    (
        "alone --curves c=i --cache 256 --models a=m --sessions s --turns 1",
        " c:i | a:m | s | 1 | 256",
    ),
    (
        "alone --models a=m --cache 0000007 --sessions s",
        " | a:m | s | | 7",
    ),
    // The command.
    ("", NOTHING),
    ("alone", NOTHING),
    ("run --models a=m --sessions s", NOTHING),
    ("Alone --models a=m --sessions s", NOTHING),
    ("--models a=m --sessions s", NOTHING),
    // The options.
    ("alone --models a=m", NOTHING),
    ("alone --sessions s", NOTHING),
    ("alone --curves c=i --sessions s", NOTHING),
    ("alone --models a=m --sessions", NOTHING),
    ("alone --models a=m --sessions s --turns", NOTHING),
    ("alone --models a=m --models b=n --sessions s", NOTHING),
    ("alone --models a=m --sessions s --models a=m", NOTHING),
    ("alone --models a=m --sessions s --sessions s", NOTHING),
    (
        "alone --curves c=i --curves d=j --models a=m --sessions s",
        NOTHING,
    ),
    (
        "alone --models a=m --turns 1 --sessions s --turns 1",
        NOTHING,
    ),
    ("alone --models a=m --sessions s --cache", NOTHING),
    (
        "alone --models a=m --sessions s --cache 64 --cache 64",
        NOTHING,
    ),
    (
        "alone --cache 1 --models a=m --cache 2 --sessions s",
        NOTHING,
    ),
    ("alone --model a=m --sessions s", NOTHING),
    ("alone --Models a=m --sessions s", NOTHING),
    ("alone --models a=m --sessions s --help", NOTHING),
    ("alone --models a=m --sessions s --help x", NOTHING),
    ("alone x --models a=m --sessions s", NOTHING),
    // The parts of a list.
    ("alone --models  --sessions s", NOTHING),
    ("alone --models a=m, --sessions s", NOTHING),
    ("alone --models ,a=m --sessions s", NOTHING),
    ("alone --models a=m,,b=n --sessions s", NOTHING),
    ("alone --models m --sessions s", NOTHING),
    ("alone --models =m --sessions s", NOTHING),
    ("alone --models a= --sessions s", NOTHING),
    ("alone --models a/b=m --sessions s", NOTHING),
    ("alone --models é=m --sessions s", NOTHING),
    ("alone --models a=m --sessions s,,t", NOTHING),
    ("alone --curves  --models a=m --sessions s", NOTHING),
    ("alone --curves i --models a=m --sessions s", NOTHING),
    // Equal names.
    ("alone --models a=m,b=n,a=o --sessions s", NOTHING),
    ("alone --curves c=i,c=j --models a=m --sessions s", NOTHING),
    (
        "alone --curves IntCal20=i,intcal20=j --models a=m --sessions s",
        NOTHING,
    ),
    // One part more than there may be.
    (
        "alone --curves a=1,b=2,c=3,d=4,e=5 --models a=m --sessions s",
        NOTHING,
    ),
    (
        "alone --models a=1,b=2,c=3,d=4,e=5,f=6,g=7,h=8,i=9 --sessions s",
        NOTHING,
    ),
    ("alone --models a=m --sessions 1,2,3,4,5,6,7,8,9", NOTHING),
    // Turns of no session.
    ("alone --models a=m --sessions s --turns 0", NOTHING),
    ("alone --models a=m --sessions s,t --turns 1,3", NOTHING),
    ("alone --models a=m --sessions s --turns ", NOTHING),
    ("alone --models a=m --sessions s --turns 1,", NOTHING),
    ("alone --models a=m --sessions s --turns 00000001", NOTHING),
    ("alone --models a=m --sessions s --turns +1", NOTHING),
    ("alone --models a=m --sessions s --turns 1x", NOTHING),
    // Sizes that no cache has. Of two of them the last sixteen bits are 0 and 64.
    ("alone --models a=m --sessions s --cache 257", NOTHING),
    ("alone --models a=m --sessions s --cache 65536", NOTHING),
    ("alone --models a=m --sessions s --cache 6553664", NOTHING),
    ("alone --models a=m --sessions s --cache 9999999", NOTHING),
    ("alone --models a=m --sessions s --cache -1", NOTHING),
    ("alone --models a=m --sessions s --cache +1", NOTHING),
    ("alone --models a=m --sessions s --cache 1x", NOTHING),
    ("alone --models a=m --sessions s --cache 1,2", NOTHING),
    ("alone --models a=m --sessions s --cache ", NOTHING),
    ("alone --models a=m --sessions s --cache 00000064", NOTHING),
    ("alone --models a=m --sessions s --Cache 64", NOTHING),
];

#[test]
fn lines(rt: HostRuntime) -> Result<(), Fail> {
    for (line, want) in &LINES {
        let words = words_of(rt.alloc(), line)?;
        assert_eq!(rt; asked(rt.alloc(), &words)?.as_str(), *want, "{line}");
    }
    Ok(())
}

#[test]
fn no_word(rt: HostRuntime) -> Result<(), Fail> {
    let words = Vec::new(rt.alloc());
    assert_eq!(rt; asked(rt.alloc(), &words)?.as_str(), NOTHING);
    Ok(())
}

/// The lengths of a name, of a model's file and of a session's, how many turns come behind the first, and whether the
/// words ask for something.
static SIZES: [(u32, u32, u32, u32, bool); 9] = [
    (1, 1, 1, 0, true),
    (64, 240, 240, 9_999, true),
    (65, 1, 1, 0, false),
    (1, 241, 1, 0, false),
    (1, 1, 241, 0, false),
    (1, 1, 1, 10_000, false),
    (0, 1, 1, 0, false),
    (1, 0, 1, 0, false),
    (1, 1, 0, 0, false),
];

fn sized_line(
    alloc: Global,
    name: u32,
    file: u32,
    session: u32,
    turns: u32,
) -> Result<String, Fail> {
    let name = repeated(alloc, "n", name)?;
    let file = repeated(alloc, "f", file)?;
    let session = repeated(alloc, "s", session)?;
    let turns = repeated(alloc, ",1", turns)?;
    Ok(format!(in alloc; "alone --models {name}={file} --sessions {session} --turns 1{turns}")?)
}

#[test]
fn sizes(rt: HostRuntime) -> Result<(), Fail> {
    for (name, file, session, turns, want) in &SIZES {
        let line = sized_line(rt.alloc(), *name, *file, *session, *turns)?;
        let words = words_of(rt.alloc(), line.as_str())?;
        let request = request_of(rt.alloc(), &words)?;
        assert_eq!(rt; request.is_some(), *want, "{name} {file} {session} {turns}");
    }
    Ok(())
}
