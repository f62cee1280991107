ghost use Rattle.cg_edit.specs.Kept.{AreKept};
ghost use Rattle.cg_edit.specs.Stays.{AllElseStays};

/// A change that is in order, and is accepted, makes a model of a model: its limits hold, each Boundary stands in a
/// Sequence, and its values are in their ranges.
pub fn changed_models_are_models()
    ensures { AreKept }
{}

/// After a change that is accepted, the text of the model is as before but for the one node that has the name: a leaf
/// with the new dating stands in place of the old one, or a group with one more member in place of the old group.
pub fn all_else_stays()
    ensures { AllElseStays }
{}
