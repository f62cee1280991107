//! Reading a whole file.
ghost use Rattle.std.specs.Prelude.{◌≡◌, ◌-◌, ◌<◌, ◌^◌, length, IfOk, IfErr, true};
ghost use Rattle.cg_token.specs.Kind.{is_gap};
ghost use Rattle.cg_token.specs.View.{kind_of};
ghost use Rattle.cg_grammar.specs.Steps.{is_complete, is_start};
ghost use Rattle.cg_grammar.specs.Text.{told, FailsBy, Reads};
ghost use Rattle.cg_cql.specs.View.{part_of, state_of};

use crate::reader::{Part, Reader};
use cg_grammar::{Base, CqlCause, CqlFault, Refusal};
use cg_token::{Lexer, Token};
use std::alloc::Global;

fn is_gap(token: Token) -> bool
    ensures { result ≡ is_gap (kind_of token.entry) }
{
    matches!(token, Token::Gap)
}

fn is_complete(part: Part) -> bool
    ensures { result ≡ is_complete (part_of part.entry) }
{
    matches!(part, Part::Complete)
}

/// What a refusal tells: its cause at the token's line, or an argument at the line of the token before.
fn told(refusal: Refusal, before: u32, line: u32) -> CqlFault
    ensures { result ≡ told refusal before line }
{
    match refusal {
        Refusal::Here(cause) => CqlFault { line, cause },
        Refusal::Before => CqlFault {
            line: before,
            cause: CqlCause::Argument,
        },
    }
}

/// A reader that took all tokens of a file, or the first refusal.
pub fn read<'a>(alloc: Global, base: Base, bytes: &'a [u8]) -> Result<Reader<'a>, CqlFault>
    requires few { length bytes.now < 2 ^ 32 - 1 }
    requires start { is_start base ≡ true }
    ensures found { IfOk result (λ reader. Reads base bytes.now (state_of reader)) }
    ensures refused { IfErr result (λ fault. FailsBy base bytes.now fault) }
{
    let mut lexer = Lexer::new(bytes);
    let mut reader = Reader::new(alloc, base);
    let mut before = 1;
    'pieces: loop {
        let line = lexer.line;
        let token = lexer.next();
        if !is_gap(token) {
            if let Err(refusal) = reader.take(token) {
                return Err(told(refusal, before, line));
            }
            if is_complete(reader.part) {
                return Ok(reader);
            }
            before = line;
        }
    }
}
