//! What was read so far, and the next token.
ghost use Rattle.std.specs.Prelude.{◌≡◌, length, not};
ghost use Rattle.cg_model.specs.Node.{trees_of};
ghost use Rattle.cg_token.specs.Cut.{AreWords};
ghost use Rattle.cg_token.specs.View.{kind_of};
ghost use Rattle.cg_grammar.specs.Done.{is_none, parent};
ghost use Rattle.cg_grammar.specs.Steps.{outside, begun, step, path_of};
ghost use Rattle.cg_cql.specs.View.{frames_of, state_of, Refuses, IsMade, IsSound};

use cg_grammar::{Base, Command, CqlCause, Given, Refusal, Setting};
use cg_model::{GroupKind, Members, Name};
use cg_token::Token;
use std::alloc::Global;

/// Where reading stands in a statement.
#[derive(Clone, Copy)]
pub enum Part<'a> {
    /// A statement may begin.
    Item,
    /// The same, or a semicolon behind the closing brace.
    Closed,
    /// Behind the word of a command.
    Called(Command),
    /// Behind the opening parenthesis.
    Opening(Command),
    /// Behind an argument.
    Given(Command, Given<'a>),
    /// Behind a comma.
    Parted(Command, Given<'a>),
    /// Behind the closing parenthesis.
    Ready(Command, Given<'a>),
    /// In Options an option may begin.
    Option,
    /// Behind its word.
    Named(&'a [u8], Setting),
    /// Behind its equals sign.
    Equated(&'a [u8], Setting),
    /// Behind its value.
    Valued,
    /// Behind the end.
    Complete,
}

/// An open group, and the members that stand before it.
#[derive(Drop)]
pub struct Frame {
    pub kind: GroupKind,
    pub name: Name,
    pub before: Members,
}

/// What was read so far.
#[derive(Drop)]
pub struct Reader<'a> {
    pub alloc: Global,
    pub base: Base,
    /// The open groups, the innermost last.
    pub frames: Vec<Frame>,
    /// The members so far of the innermost one.
    pub members: Members,
    pub curve: Option<Name>,
    /// How many events there are.
    pub events: u32,
    /// How many groups began.
    pub groups: u32,
    pub part: Part<'a>,
}

/// The refusal of a token that doesn't fit outside the parentheses.
pub fn outside(token: Token) -> Refusal
    ensures { Refuses result (outside (kind_of token.entry)) }
{
    match token {
        Token::Unreadable => Refusal::Here(CqlCause::Token),
        _ => Refusal::Here(CqlCause::Syntax),
    }
}

impl<'a> Reader<'a> {
    /// Nothing was read.
    pub fn new(alloc: Global, base: Base) -> Reader<'a>
        ensures { state_of result ≡ begun base }
    {
        Reader {
            alloc,
            base,
            frames: Vec::new(alloc),
            members: Members::new(alloc),
            curve: None,
            events: 0,
            groups: 0,
            part: Part::Item,
        }
    }

    /// The kind of the innermost open group.
    pub fn parent(&self) -> Option<GroupKind>
        ensures { result ≡ parent (path_of (frames_of self.now)) }
    {
        self.frames.last().map(|frame| frame.kind)
    }

    /// How many groups are open.
    pub fn depth(&self) -> usize
        ensures { result ≡ length (path_of (frames_of self.now)) }
    {
        self.frames.as_slice().len()
    }

    /// Whether the innermost open group has a member.
    pub fn started(&self) -> bool
        ensures { result ≡ not (is_none (trees_of self.now.members)) }
    {
        self.members.len() != 0
    }

    /// Takes the next token. A refusal tells its cause, and want of memory is one.
    pub fn take(&mut self, token: Token<'a>) -> Result<(), Refusal>
        requires word { AreWords (kind_of token) }
        requires sound { IsSound (state_of self.old) }
        ensures made { IsMade (step (state_of self.old) (kind_of token.entry)) result (state_of self.new) }
    {
        match self.part {
            Part::Item => self.at_item(token),
            Part::Closed => self.at_closed(token),
            Part::Called(command) => self.at_called(command, token),
            Part::Opening(command) => self.at_opening(command, token),
            Part::Given(command, given) => self.at_given(command, given, token),
            Part::Parted(command, given) => self.at_value(command, given, token),
            Part::Ready(command, given) => self.at_ready(command, given, token),
            Part::Option => self.at_option(token),
            Part::Named(word, setting) => self.at_named(word, setting, token),
            Part::Equated(word, setting) => self.at_equated(word, setting, token),
            Part::Valued => self.at_valued(token),
            Part::Complete => Err(Refusal::Here(CqlCause::Syntax)),
        }
    }
}
