//! Reading options.
ghost use Rattle.std.specs.Prelude.{◌≡◌, Some};
ghost use Rattle.cg_token.specs.Cut.{AreWords};
ghost use Rattle.cg_token.specs.View.{kind_of};
ghost use Rattle.cg_grammar.specs.Steps.{at_option, at_named, at_equated, at_valued};
ghost use Rattle.cg_grammar.specs.Words.{setting_of};
ghost use Rattle.cg_cql.specs.View.{Makes};

use crate::name::name_of_word;
use crate::node::with_ending;
use crate::reader::{Part, Reader, outside};
use cg_grammar::{CqlCause, Refusal, Setting, curve_limit, is_file, setting_of};
use cg_token::{Mark, Token};

impl<'a> Reader<'a> {
    /// A token where an option may begin.
    pub fn at_option(&mut self, token: Token<'a>) -> Result<(), Refusal>
        requires { AreWords (kind_of token) }
        ensures { Makes self.old (at_option (kind_of token.entry)) result self.new }
    {
        match token {
            Token::Word(word) => {
                let Some(setting) = setting_of(word) else {
                    let name = name_of_word(self.alloc, word)?;
                    return Err(Refusal::Here(CqlCause::Option(name)));
                };
                if let Setting::Curve = setting {
                    if let Some(cause) = curve_limit(self.curve.is_some()) {
                        return Err(Refusal::Here(cause));
                    }
                }
                self.part = Part::Named(word, setting);
                Ok(())
            }
            Token::Mark(Mark::BraceClose) => {
                self.part = Part::Closed;
                Ok(())
            }
            _ => Err(outside(token)),
        }
    }

    /// A token behind the word of an option.
    pub fn at_named(
        &mut self,
        word: &'a [u8],
        setting: Setting,
        token: Token<'a>,
    ) -> Result<(), Refusal>
        ensures { Makes self.old (at_named word.now setting (kind_of token.entry)) result self.new }
    {
        match token {
            Token::Mark(Mark::Equals) => {
                self.part = Part::Equated(word, setting);
                Ok(())
            }
            _ => Err(outside(token)),
        }
    }

    /// A token behind the equals sign of an option.
    pub fn at_equated(
        &mut self,
        word: &'a [u8],
        setting: Setting,
        token: Token<'a>,
    ) -> Result<(), Refusal>
        requires { setting_of word.now ≡ Some setting }
        ensures { Makes self.old (at_equated word.now setting (kind_of token.entry)) result self.new }
    {
        match (setting, token) {
            (Setting::False, Token::Word(value)) if value == b"FALSE".as_slice() => {}
            (Setting::One, Token::Number(1_000)) => {}
            (Setting::Curve, Token::Text(file)) => {
                if !is_file(file) {
                    return Err(Refusal::Here(CqlCause::Argument));
                }
                self.curve = Some(with_ending(self.alloc, file)?);
            }
            (Setting::Ignored, Token::Word(_) | Token::Number(_) | Token::Text(_)) => {}
            (_, Token::Word(_) | Token::Number(_) | Token::Text(_)) => {
                return Err(Refusal::Here(CqlCause::Option(name_of_word(self.alloc, word)?)));
            }
            _ => return Err(outside(token)),
        }
        self.part = Part::Valued;
        Ok(())
    }

    /// A token behind the value of an option.
    pub fn at_valued(&mut self, token: Token<'a>) -> Result<(), Refusal>
        ensures { Makes self.old (at_valued (kind_of token.entry)) result self.new }
    {
        match token {
            Token::Mark(Mark::Semicolon) => {
                self.part = Part::Option;
                Ok(())
            }
            _ => Err(outside(token)),
        }
    }
}
