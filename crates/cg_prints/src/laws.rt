ghost use Rattle.cg_prints.specs.Laws.{PrintsAreFounded};

use cg_edit::changed_models_are_models;

/// The law that each marginal that a session prints is of an event of a model within its limits, on a grid within its
/// own, on which each event can be weighed. Does nothing.
pub fn prints_are_founded()
    ensures { PrintsAreFounded }
{
    changed_models_are_models();
}
