use cg_edit::Edit;
use cg_model::Name;
use cg_num::Year;

/// A command of a session.
#[derive(Drop)]
pub enum Command {
    /// Sets the grid from an older year to a younger one, as the script gives them.
    Grid(Year, Year),
    /// Goes to the head of the model of this name.
    Open(Name),
    /// Goes to the version of this number.
    Take(u32),
    /// Goes to the parent of the version.
    Undo,
    /// Makes a new version by this change.
    Change(Edit),
    /// Makes the version the head of the model of this name.
    Commit(Name),
    /// Prints the marginal of the event of this name.
    Print(Name),
    /// Prints the years that cover most of it.
    Ranges(Name),
    /// Prints the fingerprint and the text of the version's model.
    Model,
    /// Prints the counts of the session's claims.
    Work,
}
