ghost use Rattle.std.specs.Prelude.{◌≡◌, ◌+◌, ◌<◌, ◌≤◌, ◌^◌, length};
ghost use Rattle.cg_token.specs.Cut.{cut, AreWords};
ghost use Rattle.cg_token.specs.Tokens.{newlines, line_after, behind};
ghost use Rattle.cg_token.specs.View.{kind_of};

use crate::cut::cut;
use crate::token::Token;

/// Bytes that are still to be cut, and the line on which they begin.
#[derive(Clone, Copy)]
pub struct Lexer<'a> {
    /// What comes after the pieces so far.
    pub rest: &'a [u8],
    /// 1, and 1 for each LF before these bytes.
    pub line: u32,
}

fn newlines(bytes: &[u8]) -> usize
    ensures value { result ≡ newlines bytes.now }
    ensures within { result ≤ length bytes.now }
{
    bytes.iter().filter(|c| **c == b'\n').count()
}

impl<'a> Lexer<'a> {
    /// All of a file, from its first line. Takes no memory.
    pub fn new(bytes: &'a [u8]) -> Lexer<'a>
        ensures rest { result.rest.now ≡ bytes.now }
        ensures line { result.line ≡ 1 }
    {
        Lexer {
            rest: bytes,
            line: 1,
        }
    }

    /// The next piece, which begins on the line that the lexer had. Takes no memory.
    ///
    /// Behind the end of the bytes, and where no token stands, the lexer stays where it is.
    pub fn next(&mut self) -> Token<'a>
        requires { self.old.line + length self.old.rest.now < 2 ^ 32 }
        ensures kind { kind_of result ≡ (cut self.old.rest.now).kind }
        ensures words { AreWords (kind_of result) }
        ensures rest { self.new.rest.now ≡ behind self.old.rest.now }
        ensures line { self.new.line ≡ line_after self.old.line self.old.rest.now }
        ensures kept { self.new.line + length self.new.rest.now ≤ self.old.line + length self.old.rest.now }
        ensures shorter { length self.new.rest.now + (cut self.old.rest.now).used ≤ length self.old.rest.now }
    {
        let (token, used) = cut(self.rest);
        let (piece, rest) = self.rest.split_at(used);
        self.line += newlines(piece) as u32;
        self.rest = rest;
        token
    }
}
