ghost use Rattle.cg_part.specs.Laws.{ElementsHaveTheEvents, PartSumsAreTables, TotalsAreByTables, PinnedTotals, OpenEventsCarryThePair, ClosedSpans, SpansAreExact};

/// The law that the element of a node has the node's events, by their numbers, and no other. Does nothing.
pub fn elements_have_the_events()
    ensures { ElementsHaveTheEvents }
{}

/// The law that the table of a node's element, by the formulas, holds the node's part sums. Does nothing.
pub fn part_sum_is_table()
    ensures { PartSumsAreTables }
{}

/// The law that the total of a model's table is the sum of the weights of all its allowed datings. Does nothing.
pub fn total_is_by_tables()
    ensures { TotalsAreByTables }
{}

/// The law that the total of a model's table, with an event's row held at one cell, is the sum over the allowed datings
/// with the event there. Does nothing.
pub fn pinned_total_is_by_tables()
    ensures { PinnedTotals }
{}

/// The law that a Boundary pair gives the weight of its span to just the open events of a node between the two. Does
/// nothing.
pub fn open_events_carry_the_pair()
    ensures { OpenEventsCarryThePair }
{}

/// The law that under admitted weights a Boundary adds nothing to the span that it closes. Does nothing.
pub fn closed_spans_are_spanned()
    ensures { ClosedSpans }
{}

/// The law that the weight of a span on the grid is no rounded quotient. Does nothing.
pub fn spans_are_exact()
    ensures { SpansAreExact }
{}
