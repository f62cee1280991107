//! Pieces of files.
use cg_token::{Lexer, Mark, Token};
use std::alloc::Global;
use std::fmt::Write;
use std::test::Fail;

const MAX_BYTES: usize = 1_000;

fn name_of(mark: Mark) -> &'static str {
    match mark {
        Mark::ParenOpen => "(",
        Mark::ParenClose => ")",
        Mark::BraceOpen => "{",
        Mark::BraceClose => "}",
        Mark::Comma => ",",
        Mark::Semicolon => ";",
        Mark::Equals => "=",
    }
}

/// A piece as text: its kind, and what it says.
fn shown(alloc: Global, token: Token) -> Result<String, Fail> {
    let mut text = String::new(alloc);
    match token {
        Token::Gap => text.push_str("gap")?,
        Token::Word(word) => write!(&mut text, "word of {}", word.len())?,
        Token::Text(said) => write!(&mut text, "text {said}")?,
        Token::Number(number) => write!(&mut text, "number {number}")?,
        Token::Mark(mark) => write!(&mut text, "mark {}", name_of(mark))?,
        Token::End => text.push_str("end")?,
        Token::Unreadable => text.push_str("unreadable")?,
    }
    Ok(text)
}

/// The piece in front of a text, the line behind it, and how many bytes stand there.
static PIECES: [(&str, &str, u32, usize); 27] = [
    ("", "end", 1, 0),
    (" x", "gap", 1, 1),
    ("\t\n", "gap", 1, 1),
    ("\n\n", "gap", 2, 1),
    ("// a\nb", "gap", 1, 2),
    ("/* \n\n */;", "gap", 3, 1),
    ("/***/*/", "gap", 1, 2),
    ("/*/", "unreadable", 1, 3),
    ("/*", "unreadable", 1, 2),
    ("/ /", "unreadable", 1, 3),
    ("R_Date(", "word of 6", 1, 1),
    ("_a1-1", "word of 3", 1, 2),
    ("\"A b\",", "text A b", 1, 1),
    ("\"\"\"", "text ", 1, 1),
    ("\"a\nb\"", "unreadable", 1, 5),
    ("\"a", "unreadable", 1, 2),
    ("-05.250)", "number -5250", 1, 1),
    ("+1,", "number 1000", 1, 1),
    ("999999999999.999", "number 999999999999999", 1, 0),
    ("1.0000a", "number 1000", 1, 1),
    ("1.0004", "unreadable", 1, 6),
    ("1000000000000", "unreadable", 1, 13),
    ("1.", "unreadable", 1, 2),
    ("-", "unreadable", 1, 1),
    ("=5", "mark =", 1, 1),
    ("(){},;", "mark (", 1, 5),
    ("#", "unreadable", 1, 1),
];

#[test]
fn pieces_in_front(rt: HostRuntime) -> Result<(), Fail> {
    for (text, want, line, left) in &PIECES {
        if text.len() <= MAX_BYTES {
            let mut lexer = Lexer::new(text.as_bytes());
            let piece = shown(rt.alloc(), lexer.next())?;
            assert_eq!(rt; piece.as_str(), *want, "{text:?}");
            assert_eq!(rt; lexer.line, *line, "{text:?}");
            assert_eq!(rt; lexer.rest.len(), *left, "{text:?}");
        }
    }
    Ok(())
}

/// Marks in their order.
static MARKS: [(&str, &str); 7] = [
    ("(", "mark ("),
    (")", "mark )"),
    ("{", "mark {"),
    ("}", "mark }"),
    (",", "mark ,"),
    (";", "mark ;"),
    ("=", "mark ="),
];

#[test]
fn each_mark(rt: HostRuntime) -> Result<(), Fail> {
    for (text, want) in &MARKS {
        if text.len() <= MAX_BYTES {
            let piece = shown(rt.alloc(), Lexer::new(text.as_bytes()).next())?;
            assert_eq!(rt; piece.as_str(), *want);
        }
    }
    Ok(())
}

#[test]
fn texts_that_are_not_utf8(rt: HostRuntime) {
    assert!(rt; matches!(Lexer::new(b"\"\xff\"").next(), Token::Unreadable));
    assert!(rt; matches!(Lexer::new(b"\"\xc3\xa9\"").next(), Token::Text("\u{e9}")));
}
