ghost use Rattle.cg_path.specs.Laws.{CallsGiveCoefficients, EntriesAreHeldTotals, EntriesAreTotals, OrderDoesNotCount};

/// The law that each call of a context gives the coefficients of what it leads to: with them the same total comes. Does
/// nothing.
pub fn calls_give_coefficients()
    ensures { CallsGiveCoefficients }
{}

/// The law that side by side the order of tables doesn't count. Does nothing.
pub fn order_does_not_count()
    ensures { OrderDoesNotCount }
{}

/// The law that an event's entry at a cell, by contexts from the root down, is the total of the tree's table with the event's
/// row zero but at that cell. Does nothing.
pub fn entries_are_held_totals()
    ensures { EntriesAreHeldTotals }
{}

/// The law that it is the sum of the weights of the allowed datings with the event at that cell. Does nothing.
pub fn entries_are_totals()
    ensures { EntriesAreTotals }
{}
