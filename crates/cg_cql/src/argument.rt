//! Reading arguments.
ghost use Rattle.cg_token.specs.View.{kind_of};
ghost use Rattle.cg_grammar.specs.Arguments.{is_whole};
ghost use Rattle.cg_grammar.specs.Steps.{inside, at_called, at_value, at_opening, at_given, given_if, ready_if};
ghost use Rattle.cg_grammar.specs.View.{given_of};
ghost use Rattle.cg_cql.specs.View.{Refuses, Makes};

use crate::reader::{Part, Reader, outside};
use cg_grammar::{
    Command, CqlCause, Given, Refusal, is_whole, may_part, takes_error, takes_file, takes_text,
    takes_value,
};
use cg_token::{Mark, Token};

/// The refusal of a token that doesn't fit inside the parentheses.
fn inside(token: Token) -> Refusal
    ensures { Refuses result (inside (kind_of token.entry)) }
{
    match token {
        Token::Unreadable => Refusal::Here(CqlCause::Token),
        Token::End => Refusal::Here(CqlCause::Syntax),
        _ => Refusal::Here(CqlCause::Argument),
    }
}

impl<'a> Reader<'a> {
    /// A token behind the word of a command.
    pub fn at_called(&mut self, command: Command, token: Token<'a>) -> Result<(), Refusal>
        ensures { Makes self.old (at_called command (kind_of token.entry)) result self.new }
    {
        match token {
            Token::Mark(Mark::ParenOpen) => {
                self.part = Part::Opening(command);
                Ok(())
            }
            _ => Err(outside(token)),
        }
    }

    /// One more argument, if it fits.
    fn give(&mut self, fits: bool, command: Command, given: Given<'a>) -> Result<(), Refusal>
        ensures { Makes self.old (given_if fits command (given_of given.entry)) result self.new }
    {
        if !fits {
            return Err(Refusal::Here(CqlCause::Argument));
        }
        self.part = Part::Given(command, given);
        Ok(())
    }

    /// A token where an argument may come.
    pub fn at_value(
        &mut self,
        command: Command,
        given: Given<'a>,
        token: Token<'a>,
    ) -> Result<(), Refusal>
        ensures { Makes self.old (at_value command (given_of given.entry) (kind_of token.entry)) result self.new }
    {
        match (given, token) {
            (Given::Nothing, Token::Text(text)) => self.give(
                takes_text(command, text),
                command,
                Given::One(text),
            ),
            (Given::Nothing, Token::Number(number)) => {
                self.give(
                    takes_value(command, number),
                    command,
                    Given::Value(None, number),
                )
            }
            (Given::One(first), Token::Text(text)) => {
                self.give(takes_file(command, text), command, Given::Two(first, text))
            }
            (Given::One(first), Token::Number(number)) => {
                self.give(
                    takes_value(command, number),
                    command,
                    Given::Value(Some(first), number),
                )
            }
            (Given::Value(first, value), Token::Number(number)) => {
                self.give(
                    takes_error(command, number),
                    command,
                    Given::Values(first, value, number),
                )
            }
            _ => Err(inside(token)),
        }
    }

    /// The closing parenthesis.
    fn at_paren(&mut self, command: Command, given: Given<'a>) -> Result<(), Refusal>
        ensures { Makes self.old (ready_if (is_whole command (given_of given.entry)) command (given_of given.entry)) result
            self.new }
    {
        if is_whole(command, &given) {
            self.part = Part::Ready(command, given);
            return Ok(());
        }
        match (command, given) {
            (Command::Curve, Given::One(_)) => Err(Refusal::Before),
            _ => Err(Refusal::Here(CqlCause::Argument)),
        }
    }

    /// A token behind the opening parenthesis.
    pub fn at_opening(&mut self, command: Command, token: Token<'a>) -> Result<(), Refusal>
        ensures { Makes self.old (at_opening command (kind_of token.entry)) result self.new }
    {
        match token {
            Token::Mark(Mark::ParenClose) => self.at_paren(command, Given::Nothing),
            _ => self.at_value(command, Given::Nothing, token),
        }
    }

    /// A token behind an argument.
    pub fn at_given(
        &mut self,
        command: Command,
        given: Given<'a>,
        token: Token<'a>,
    ) -> Result<(), Refusal>
        ensures { Makes self.old (at_given command (given_of given.entry) (kind_of token.entry)) result self.new }
    {
        match token {
            Token::Mark(Mark::ParenClose) => self.at_paren(command, given),
            Token::Mark(Mark::Comma) => {
                if !may_part(command, &given) {
                    return Err(Refusal::Here(CqlCause::Argument));
                }
                self.part = Part::Parted(command, given);
                Ok(())
            }
            _ => Err(inside(token)),
        }
    }
}
