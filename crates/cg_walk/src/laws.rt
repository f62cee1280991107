ghost use Rattle.cg_walk.specs.Laws.{DeedsLeaveLess, PrintsAreShort, PrintsAreWalks};

/// The law that what is done one deed at a time, until nothing is left of what a print gets, is a walk through it, and
/// that each walk is done so. Does nothing.
pub fn prints_are_walks()
    ensures { PrintsAreWalks }
{}

/// The law that each deed leaves less to be done. Does nothing.
pub fn deeds_leave_less()
    ensures { DeedsLeaveLess }
{}

/// The law that a print of a model within its limits makes at most 322 deeds. Does nothing.
pub fn prints_are_short()
    ensures { PrintsAreShort }
{}
