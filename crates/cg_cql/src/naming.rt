//! The line of the curve's name in a file.
ghost use Rattle.std.specs.Prelude.{◌≡◌, ℕ, ◌-◌, ◌<◌, ◌^◌, ◌↔◌, length, List, [], ◌∷◌, IsSome};
ghost use Rattle.cg_meaning.specs.Tree.{Chronology};
ghost use Rattle.cg_token.specs.Kind.{mark, is_last};
ghost use Rattle.cg_token.specs.Tokens.{Placed, tokens_in};
ghost use Rattle.cg_token.specs.View.{kind_of};
ghost use Rattle.cg_grammar.specs.CurveLine.{is_curve, IsCurveLine};
ghost use Rattle.cg_grammar.specs.Text.{Spells};
ghost use Rattle.cg_cql.specs.CurveLine.{line_in, line_from};

use cg_token::{Lexer, Mark, Token};

/// What the tokens so far say of the curve's name.
#[derive(Clone, Copy)]
enum Naming {
    /// Nothing.
    Nothing,
    /// The last is the word Curve.
    Word,
    /// An equals sign is behind it.
    Equated,
    /// An opening parenthesis is behind it.
    Opening,
    /// A text on this line is behind that.
    First(u32),
    /// A comma is behind that.
    Parted(u32),
    /// The name is on this line.
    Named(u32),
}

fn is_last(token: Token) -> bool
    ensures { result ≡ is_last (kind_of token.entry) }
{
    matches!(token, Token::End | Token::Unreadable)
}

fn is_curve(token: Token) -> bool
    ensures { result ≡ is_curve (kind_of token.entry) }
{
    match token {
        Token::Word(word) => word == b"Curve".as_slice(),
        _ => false,
    }
}

impl Naming {
    /// What a token says by itself.
    fn begun(token: Token) -> Naming
        ensures { (line : ℕ) (tokens : List Placed)
            → line_from result tokens ≡ line_in (record { line = line; kind = kind_of token.entry } ∷ tokens) }
    {
        if is_curve(token) {
            Naming::Word
        } else {
            Naming::Nothing
        }
    }

    /// What a mark says behind the word Curve.
    fn behind_word(next: Mark) -> Naming
        ensures { (line : ℕ) (tokens : List Placed)
            → line_from result tokens ≡ line_from Naming.Word (record { line = line; kind = mark next } ∷ tokens) }
    {
        match next {
            Mark::Equals => Naming::Equated,
            Mark::ParenOpen => Naming::Opening,
            _ => Naming::Nothing,
        }
    }

    /// What the tokens say with one piece more, which begins on this line.
    fn after(self, token: Token, line: u32) -> Naming
        ensures { (pieces : List Placed)
            → line_from result (tokens_in pieces)
            ≡ line_from self (tokens_in (record { line = line; kind = kind_of token.entry } ∷ pieces)) }
    {
        if let Token::Gap = token {
            return self;
        }
        match self {
            Naming::Nothing => Naming::begun(token),
            Naming::Word => match token {
                Token::Mark(mark) => Naming::behind_word(mark),
                _ => Naming::begun(token),
            },
            Naming::Equated => match token {
                Token::Text(_) => Naming::Named(line),
                _ => Naming::begun(token),
            },
            Naming::Opening => match token {
                Token::Text(_) => Naming::First(line),
                _ => Naming::begun(token),
            },
            Naming::First(first) => match token {
                Token::Mark(Mark::Comma) => Naming::Parted(first),
                _ => Naming::Named(first),
            },
            Naming::Parted(first) => match token {
                Token::Text(_) => Naming::Named(line),
                _ => Naming::Named(first),
            },
            Naming::Named(_) => self,
        }
    }

    /// The line, if no more tokens come.
    fn line(self) -> Option<u32>
        ensures { result ≡ line_from self [] }
    {
        match self {
            Naming::First(line) | Naming::Parted(line) | Naming::Named(line) => Some(line),
            _ => None,
        }
    }
}

/// The line of the text by which a model file names its curve, and None where it names none. In bytes that are no model
/// it is that of the first text which stands so. Takes no memory.
pub fn curve_line(bytes: &[u8]) -> Option<u32>
    requires { length bytes.now < 2 ^ 32 - 1 }
    ensures line { IsCurveLine bytes.now result }
    ensures named { (chronology : Chronology) → Spells bytes.now chronology
        → (IsSome result ↔ IsSome chronology.curve) }
{
    let mut lexer = Lexer::new(bytes);
    let mut naming = Naming::Nothing;
    'pieces: loop {
        let line = lexer.line;
        let token = lexer.next();
        naming = naming.after(token, line);
        if is_last(token) {
            return naming.line();
        }
    }
}
