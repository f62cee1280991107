//! Reading statements.
ghost use Rattle.std.specs.Prelude.{◌≡◌, [], true, None};
ghost use Rattle.cg_token.specs.Cut.{IsWord, AreWords};
ghost use Rattle.cg_token.specs.Kind.{mark};
ghost use Rattle.cg_token.specs.View.{kind_of};
ghost use Rattle.cg_token.specs.declared.token.Mark.TheVariants.{BraceOpen, Semicolon};
ghost use Rattle.cg_grammar.specs.Arguments.{is_call};
ghost use Rattle.cg_grammar.specs.Done.{is_event, barred};
ghost use Rattle.cg_grammar.specs.Steps.{at_word, at_brace, at_end, at_item, at_closed, at_ready, path_of, state};
ghost use Rattle.cg_grammar.specs.View.{given_of};
ghost use Rattle.cg_cql.specs.View.{part_of, frames_of, done_of, state_of, IsMade, Makes, IsFree};

use crate::name::name_of_word;
use crate::node::{event_in, file_in, name_in};
use crate::reader::{Frame, Part, Reader, outside};
use cg_grammar::{Base, Command, CqlCause, Given, Refusal, barred_at, command_of, is_over_at};
use cg_model::{GroupKind, Members};
use cg_text::name_of;
use cg_token::{Mark, Token};
use std::mem;

impl<'a> Reader<'a> {
    /// A word where a statement may begin.
    fn at_word(&mut self, word: &'a [u8]) -> Result<(), Refusal>
        requires word { IsWord word.now }
        ensures { Makes self.old (at_word word.now) result self.new }
    {
        let parent = self.parent();
        if is_over_at(self.base, parent, self.started()) {
            return Err(Refusal::Here(CqlCause::Syntax));
        }
        let Some(command) = command_of(word) else {
            let name = name_of_word(self.alloc, word)?;
            return Err(Refusal::Here(CqlCause::Command(name)));
        };
        let depth = self.depth();
        let named = self.curve.is_some();
        if let Some(cause) = barred_at(
            self.base,
            parent,
            depth,
            self.events,
            self.groups,
            named,
            command,
        ) {
            return Err(Refusal::Here(cause));
        }
        self.part = Part::Called(command);
        Ok(())
    }

    /// A closing brace: a group or a Plot ends.
    fn at_brace(&mut self) -> Result<(), Refusal>
        ensures { Makes self.old at_brace result self.new }
    {
        let Some(frame) = self.frames.pop() else {
            return self.at_last_brace();
        };
        let Frame { kind, name, before } = frame;
        let members = mem::replace(&mut self.members, before);
        self.members.push(kind.node(name, members))?;
        self.part = Part::Closed;
        Ok(())
    }

    /// A closing brace where no group is open.
    fn at_last_brace(&mut self) -> Result<(), Refusal>
        ensures made { IsMade (at_brace self.old.base [] (done_of self.old)) result
            (state self.new.base [] (done_of self.new) (part_of self.new.part)) }
        ensures frames { self.new.frames ≡ self.old.frames }
    {
        match self.base {
            Base::Plot => {
                self.base = Base::Script;
                self.part = Part::Closed;
                Ok(())
            }
            Base::Script | Base::Single => Err(Refusal::Here(CqlCause::Syntax)),
        }
    }

    /// The end where a statement may begin.
    fn at_end(&mut self) -> Result<(), Refusal>
        ensures { Makes self.old at_end result self.new }
    {
        if !self.frames.is_empty() {
            return Err(Refusal::Here(CqlCause::Syntax));
        }
        match self.base {
            Base::Plot => Err(Refusal::Here(CqlCause::Syntax)),
            Base::Script => {
                self.part = Part::Complete;
                Ok(())
            }
            Base::Single => {
                if !self.started() {
                    return Err(Refusal::Here(CqlCause::Syntax));
                }
                self.part = Part::Complete;
                Ok(())
            }
        }
    }

    /// A token where a statement may begin.
    pub fn at_item(&mut self, token: Token<'a>) -> Result<(), Refusal>
        requires { AreWords (kind_of token) }
        ensures { Makes self.old (at_item (kind_of token.entry)) result self.new }
    {
        match token {
            Token::Word(word) => self.at_word(word),
            Token::Mark(Mark::BraceClose) => self.at_brace(),
            Token::End => self.at_end(),
            _ => Err(outside(token)),
        }
    }

    /// A token behind a closing brace.
    pub fn at_closed(&mut self, token: Token<'a>) -> Result<(), Refusal>
        requires { AreWords (kind_of token) }
        ensures { Makes self.old (at_closed (kind_of token.entry)) result self.new }
    {
        if let Token::Mark(Mark::Semicolon) = token {
            self.part = Part::Item;
            return Ok(());
        }
        self.at_item(token)
    }

    /// The opening brace of a group.
    fn open_group(&mut self, kind: GroupKind, given: Given<'a>) -> Result<(), Refusal>
        requires whole { is_call (Command.Group kind) (given_of given) ≡ true }
        requires free { IsFree self.old (Command.Group kind) }
        ensures { Makes self.old (at_ready (Command.Group kind) (given_of given.entry) (mark BraceOpen)) result self.new }
    {
        let name = name_of(self.alloc, name_in(&given))?;
        let before = mem::replace(&mut self.members, Members::new(self.alloc));
        self.frames.push(Frame { kind, name, before })?;
        self.groups += 1;
        self.part = Part::Item;
        Ok(())
    }

    /// The semicolon of a Curve.
    fn end_curve(&mut self, given: Given<'a>) -> Result<(), Refusal>
        requires { is_call Command.Curve (given_of given) ≡ true }
        ensures { Makes self.old (at_ready Command.Curve (given_of given.entry) (mark Semicolon)) result self.new }
    {
        self.curve = Some(file_in(self.alloc, &given)?);
        self.part = Part::Item;
        Ok(())
    }

    /// The semicolon of an event.
    fn end_event(&mut self, command: Command, given: Given<'a>) -> Result<(), Refusal>
        requires whole { is_call command (given_of given) ≡ true }
        requires event { is_event command ≡ true }
        requires free { IsFree self.old command }
        ensures { Makes self.old (at_ready command (given_of given.entry) (mark Semicolon)) result self.new }
    {
        self.members.push(event_in(self.alloc, command, &given)?)?;
        self.events += 1;
        self.part = Part::Item;
        Ok(())
    }

    /// A token behind the closing parenthesis.
    pub fn at_ready(
        &mut self,
        command: Command,
        given: Given<'a>,
        token: Token<'a>,
    ) -> Result<(), Refusal>
        requires whole { is_call command (given_of given) ≡ true }
        requires free { IsFree self.old command }
        ensures { Makes self.old (at_ready command (given_of given.entry) (kind_of token.entry)) result self.new }
    {
        match (command, token) {
            (Command::Group(kind), Token::Mark(Mark::BraceOpen)) => self.open_group(kind, given),
            (Command::Plot, Token::Mark(Mark::BraceOpen)) => {
                self.base = Base::Plot;
                self.part = Part::Item;
                Ok(())
            }
            (Command::Options, Token::Mark(Mark::BraceOpen)) => {
                self.part = Part::Option;
                Ok(())
            }
            (Command::Curve, Token::Mark(Mark::Semicolon)) => self.end_curve(given),
            (
                Command::Date | Command::Boundary | Command::CDate | Command::RDate,
                Token::Mark(Mark::Semicolon),
            ) => self.end_event(command, given),
            _ => Err(outside(token)),
        }
    }
}
