use cg_model::GroupKind;

/// A command of the grammar.
#[derive(Clone, Copy, Debug, PartialEq, Eq)]
pub enum Command {
    /// An event without a dating of its own.
    Date,
    /// The beginning or the end of a span.
    Boundary,
    /// A calendar date.
    CDate,
    /// A radiocarbon date.
    RDate,
    /// `Sequence`, `Phase`, `After` or `Before`.
    Group(GroupKind),
    /// A block of top statements.
    Plot,
    /// A block of settings.
    Options,
    /// The name of a calibration curve.
    Curve,
}

/// What an option accepts.
#[derive(Clone, Copy, Debug, PartialEq, Eq)]
pub enum Setting {
    /// The word `FALSE`.
    False,
    /// The number 1.
    One,
    /// The name of a curve's file.
    Curve,
    /// Anything. It is ignored.
    Ignored,
}

/// Where the top statements stand.
#[derive(Clone, Copy, Debug, PartialEq, Eq)]
pub enum Base {
    /// In a file.
    Script,
    /// Inside a Plot.
    Plot,
    /// One statement alone.
    Single,
}
