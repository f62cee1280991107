ghost use Rattle.std.specs.Prelude.{◌≡◌};

use cg_model::Name;
use cg_num::NoMemory;
use std::alloc::AllocFailed;

/// A limit that a text passes.
#[derive(Clone, Copy, Debug, PartialEq, Eq)]
pub enum CqlLimit {
    /// The 101st event, Boundaries included.
    Events,
    /// The 61st group.
    Groups,
    /// A statement at depth 17, where a top statement has depth 1.
    Depth,
    /// The second curve.
    Curves,
}

/// Why a token can't be read on.
#[derive(Drop)]
pub enum CqlCause {
    /// It is no token.
    Token,
    /// Outside the parentheses it doesn't fit, or the bytes end inside them.
    Syntax,
    /// It is this word, and no command has it. A word of more than 120 bytes is cut.
    Command(Name),
    /// No option has this word, or it is a value that the option of this word doesn't accept.
    Option(Name),
    /// The command may not stand there.
    Place,
    /// Inside the parentheses it doesn't fit.
    Argument,
    /// It passes a limit.
    Limit(CqlLimit),
    /// There was no memory for what it says.
    NoMemory,
}

/// Why a text can't be read, and the line of the token at which that shows.
#[derive(Drop)]
pub struct CqlFault {
    /// 1, and 1 for each LF before the token.
    pub line: u32,
    /// The first cause that holds there.
    pub cause: CqlCause,
}

/// A cause at the token that was taken, or an argument at the token before it.
#[derive(Drop)]
pub enum Refusal {
    /// The token itself is at fault.
    Here(CqlCause),
    /// The text before it is: the sole text of a Curve that names no file.
    Before,
}

impl From<NoMemory> for Refusal {
    ghost use Rattle.cg_grammar.specs.Memory.{no_memory};

    ghost from_gives = { λ _ e. e ≡ no_memory };

    fn from(_refused: NoMemory) -> Refusal {
        Refusal::Here(CqlCause::NoMemory)
    }
}

impl<T: Drop> From<AllocFailed<T>> for Refusal {
    ghost use Rattle.cg_grammar.specs.Memory.{no_memory};

    ghost from_gives = { λ _ e. e ≡ no_memory };

    fn from(_refused: AllocFailed<T>) -> Refusal {
        Refusal::Here(CqlCause::NoMemory)
    }
}

impl CqlFault {
    /// Want of memory behind the last token, at line 0.
    pub fn no_memory() -> CqlFault
        ensures { result.cause ≡ CqlCause.NoMemory }
    {
        CqlFault {
            line: 0,
            cause: CqlCause::NoMemory,
        }
    }
}
