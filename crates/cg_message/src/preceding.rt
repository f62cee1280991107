//! The contexts of what precedes items of a Sequence.
ghost use Rattle.std.specs.Prelude.{◌≡◌, ◌+◌, ◌*◌, ◌≤◌, IfOk};
ghost use Rattle.cg_recipe.specs.Bounds.{nodes_in};
ghost use Rattle.cg_recipe.specs.Recipe.{preceding, preceding_all};
ghost use Rattle.cg_recipe.specs.Ticks.{item_ticks};
ghost use Rattle.cg_message.specs.Ticks.{in_order_ticks, ticks_of};
ghost use Rattle.cg_message.specs.Element.{all_in, all_placed, element_in, placed_in};
ghost use Rattle.cg_message.specs.Pass.{AreHeld, AreSmall, HasRoom, IsHeld, IsReady, IsSmall, nodes_among, pass_of};

use crate::element::Element;
use crate::pass::Pass;
use crate::tables::table_of;
use cg_context::{Context, back, back_row};
use cg_num::NoMemory;
use cg_table::Steps;
use std::sync::ledger::Ledger;

/// The context of what precedes these items, the last of a Sequence, by that of the Sequence.
pub(crate) fn preceding_all<L: Ledger>(
    pass: &Pass,
    items: &[Element],
    x: Context,
    steps: &mut Steps<L>,
) -> Result<Context, NoMemory>
    requires ready { IsReady pass.now }
    requires small { AreSmall (all_in items.now) }
    requires held { AreHeld pass.now (all_placed items.now) }
    requires room { HasRoom pass.now.grid.cells (8 * nodes_among (all_in items.now)) x }
    ensures value { IfOk result (λ v. v ≡ preceding_all (pass_of pass.now) (all_in items.now) x) }
    ensures ticks { steps.new ≤ steps.old + in_order_ticks pass.now.grid.cells (all_in items.now) }
{
    let mut v = x;
    for behind in 0..items.len() {
        let e = &items[items.len() - 1 - behind];
        v = preceding(pass, &v, e, steps)?;
    }
    Ok(v)
}

// By that of what the item ends.
fn preceding<L: Ledger>(
    pass: &Pass,
    v: &Context,
    e: &Element,
    steps: &mut Steps<L>,
) -> Result<Context, NoMemory>
    requires ready { IsReady pass.now }
    requires small { IsSmall (element_in e.now) }
    requires held { IsHeld pass.now (placed_in e.now) }
    requires room { HasRoom pass.now.grid.cells (8 * nodes_in (element_in e.now)) v.now }
    ensures value { IfOk result (λ r. r ≡ preceding (pass_of pass.now) v.now (element_in e.now)) }
    ensures ticks { steps.new ≤ steps.old
        + (ticks_of pass.now.grid.cells (element_in e.now) + item_ticks pass.now.grid.cells (element_in e.now)) }
{
    match e {
        Element::Event(number, place) => back_row(v, pass.row(*number, *place), steps),
        Element::Group(_, place, _) => back(v, pass.table(*place), steps),
        Element::Span(_, _) => {
            let table = table_of(pass, e, steps)?;
            back(v, &table, steps)
        }
    }
}
