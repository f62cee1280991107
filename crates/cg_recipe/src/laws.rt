ghost use Rattle.cg_recipe.specs.Bounds.{ElementsAreCounted, PartsAreBounded, TablesAreBounded};
ghost use Rattle.cg_recipe.specs.Enclosed.{PartsEncloseTotals, TablesEnclosePartSums};
ghost use Rattle.cg_recipe.specs.Laws.{RecipesAreRight};

use cg_like::weights_enclose;

/// The law that an element has as many events and groups as the node that it is of. Does nothing.
pub fn elements_are_counted()
    ensures { ElementsAreCounted }
{}

/// The law that the table of a node by the rounding rules encloses the node's part sums, over a divisor that the weights don't
/// change. Does nothing.
pub fn tables_enclose_part_sums()
    ensures { TablesEnclosePartSums }
{}

/// The law that an event's parts by contexts enclose the sums over the datings with the event at each cell, all over one divisor.
/// Does nothing.
pub fn parts_enclose_totals()
    ensures { PartsEncloseTotals }
{}

/// The law that these tables lose and reach little. Does nothing.
pub fn tables_are_bounded()
    ensures { TablesAreBounded }
{}

/// The law that an event's parts lose and reach little. Does nothing.
pub fn parts_are_bounded()
    ensures { PartsAreBounded }
{}

/// The law that the recipe's marginal holds for every admitted weighting, is none exactly where no dating is allowed, and is at
/// most 3 wide. Does nothing.
pub fn recipes_are_right()
    ensures { RecipesAreRight }
{
    weights_enclose();
}
