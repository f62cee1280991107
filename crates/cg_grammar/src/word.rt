//! The words of commands and options.
ghost use Rattle.std.specs.Prelude.{◌≡◌};
ghost use Rattle.cg_grammar.specs.Words.{command_of, setting_of};

use crate::command::{Command, Setting};
use cg_model::GroupKind;

/// The command of a word. Words are compared exactly.
#[tactic(auto, unfolding(crate::specs::Words::command_of))]
pub fn command_of(word: &[u8]) -> Option<Command>
    ensures { result ≡ command_of word.now }
{
    if word == b"Date".as_slice() {
        Some(Command::Date)
    } else if word == b"Boundary".as_slice() {
        Some(Command::Boundary)
    } else if word == b"C_Date".as_slice() {
        Some(Command::CDate)
    } else if word == b"R_Date".as_slice() {
        Some(Command::RDate)
    } else if word == b"Sequence".as_slice() {
        Some(Command::Group(GroupKind::Sequence))
    } else if word == b"Phase".as_slice() {
        Some(Command::Group(GroupKind::Phase))
    } else if word == b"After".as_slice() {
        Some(Command::Group(GroupKind::After))
    } else if word == b"Before".as_slice() {
        Some(Command::Group(GroupKind::Before))
    } else if word == b"Plot".as_slice() {
        Some(Command::Plot)
    } else if word == b"Options".as_slice() {
        Some(Command::Options)
    } else if word == b"Curve".as_slice() {
        Some(Command::Curve)
    } else {
        None
    }
}

/// What the option of a word accepts. Words are compared exactly.
#[tactic(auto, unfolding(crate::specs::Words::setting_of))]
pub fn setting_of(word: &[u8]) -> Option<Setting>
    ensures { result ≡ setting_of word.now }
{
    if word == b"Cubic".as_slice()
        || word == b"UniformSpanPrior".as_slice()
        || word == b"UseF14C".as_slice()
        || word == b"Intercept".as_slice()
    {
        Some(Setting::False)
    } else if word == b"Resolution".as_slice() {
        Some(Setting::One)
    } else if word == b"Curve".as_slice() {
        Some(Setting::Curve)
    } else if word == b"BCAD".as_slice()
        || word == b"PlusMinus".as_slice()
        || word == b"SD1".as_slice()
        || word == b"SD2".as_slice()
        || word == b"SD3".as_slice()
        || word == b"RawData".as_slice()
        || word == b"ConvergenceData".as_slice()
        || word == b"kIterations".as_slice()
        || word == b"Ensembles".as_slice()
    {
        Some(Setting::Ignored)
    } else {
        None
    }
}
