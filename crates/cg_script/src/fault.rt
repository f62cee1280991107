ghost use Rattle.std.specs.Prelude.{◌≡◌};

use cg_grammar::CqlCause;
use cg_model::Name;
use cg_num::NoMemory;
use std::alloc::AllocFailed;

/// A limit that a script passes.
#[derive(Clone, Copy, Debug, PartialEq, Eq)]
pub enum ScriptLimit {
    /// The 1,001st command.
    Commands,
    /// The 201st `print` or `ranges`.
    Prints,
    /// A year of a grid outside −1,000 to 60,000 cal BP.
    Years,
}

/// Why a line can't be read.
#[derive(Drop)]
pub enum ScriptCause {
    /// No command has this word. A word of more than 120 bytes is cut.
    Unknown(Name),
    /// What stands behind the word isn't what the command takes, or the word is no text.
    Syntax,
    /// Its statement can't be read.
    Statement(CqlCause),
    /// It passes a limit.
    Limit(ScriptLimit),
    /// There was no memory for what it says.
    NoMemory,
}

/// Why bytes are no script: the first line that can't be read, and there the first cause that holds.
#[derive(Drop)]
pub struct ScriptFault {
    /// Counted from 1.
    pub line: u32,
    pub cause: ScriptCause,
}

impl From<NoMemory> for ScriptCause {
    ghost use Rattle.cg_script.specs.declared.fault.ScriptCause.TheVariants as causes;

    ghost from_gives = { λ _ e. e ≡ causes.NoMemory };

    fn from(_refused: NoMemory) -> ScriptCause {
        ScriptCause::NoMemory
    }
}

impl<T: Drop> From<AllocFailed<T>> for ScriptCause {
    ghost use Rattle.cg_script.specs.declared.fault.ScriptCause.TheVariants as causes;

    ghost from_gives = { λ _ e. e ≡ causes.NoMemory };

    fn from(_refused: AllocFailed<T>) -> ScriptCause {
        ScriptCause::NoMemory
    }
}
