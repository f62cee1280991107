ghost use Rattle.cg_ranges.specs.Laws.{RangesCover};

/// The law that the chosen cells cover the target, that no fewer cells do, and that an event for which the pairs hold
/// has that part of its posterior at these cells. Does nothing.
pub fn ranges_cover()
    ensures { RangesCover }
{}
