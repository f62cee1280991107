//! The tables of elements.
ghost use Rattle.std.specs.Prelude.{◌≡◌, ◌+◌, ◌*◌, ◌≤◌, IfOk, length};
ghost use Rattle.cg_recipe.specs.Bounds.{nodes_in};
ghost use Rattle.cg_recipe.specs.Recipe.{followed, in_order, side_by_side, table_of};
ghost use Rattle.cg_recipe.specs.Ticks.{in_order_ticks, item_ticks, side_by_side_ticks, ticks_of};
ghost use Rattle.cg_up.specs.Element.{all_in, element_in};
ghost use Rattle.cg_up.specs.Pass.{AreFit, HasRoom, IsFit, IsReady, nodes_among, pass_of};

use crate::element::Element;
use crate::pass::Pass;
use crate::size::open_in;
use cg_model::GroupKind;
use cg_num::NoMemory;
use cg_table::{
    Steps, Tri, after_group, before_group, beside, identity, of_row, spanned, then, then_row,
};
use std::sync::ledger::Ledger;

/// The table of an element.
#[cycle(tables)]
pub(crate) fn table_of<L: Ledger>(
    pass: &Pass,
    e: &Element,
    steps: &mut Steps<L>,
) -> Result<Tri, NoMemory>
    requires ready { IsReady pass.now }
    requires fit { IsFit (length pass.now.rows.now) (element_in e.now) }
    ensures value { IfOk result (λ t. t ≡ table_of (pass_of pass.now) (element_in e.now)) }
    ensures ticks { steps.new ≤ steps.old + ticks_of pass.now.cells (element_in e.now) }
{
    match e {
        Element::Event(number) => of_row(pass.alloc(), pass.row(*number)),
        Element::Group(kind, elements) => {
            let nothing = identity(pass.alloc(), pass.cells())?;
            let items = elements.items();
            match kind {
                GroupKind::Sequence => in_order(pass, nothing, items, steps),
                GroupKind::Phase => side_by_side(pass, nothing, items, steps),
                GroupKind::After => after_group(&side_by_side(pass, nothing, items, steps)?),
                GroupKind::Before => before_group(&side_by_side(pass, nothing, items, steps)?),
            }
        }
        Element::Span(elements, _) => {
            let nothing = identity(pass.alloc(), pass.cells())?;
            let items = elements.items();
            let segment = in_order(pass, nothing, items, steps)?;
            spanned(&segment, open_in(items), steps)
        }
    }
}

/// Elements one after another, onto the table of what precedes them.
#[cycle(tables)]
pub(crate) fn in_order<L: Ledger>(
    pass: &Pass,
    before: Tri,
    items: &[Element],
    steps: &mut Steps<L>,
) -> Result<Tri, NoMemory>
    requires ready { IsReady pass.now }
    requires fit { AreFit (length pass.now.rows.now) (all_in items.now) }
    requires room { HasRoom pass.now.cells (8 * nodes_among (all_in items.now)) before }
    ensures value { IfOk result (λ t. t ≡ in_order (pass_of pass.now) before (all_in items.now)) }
    ensures ticks { steps.new ≤ steps.old + in_order_ticks pass.now.cells (all_in items.now) }
{
    let mut table = before;
    for e in items {
        table = followed(pass, &table, e, steps)?;
    }
    Ok(table)
}

// An element after what a table has.
#[cycle(tables)]
fn followed<L: Ledger>(
    pass: &Pass,
    before: &Tri,
    e: &Element,
    steps: &mut Steps<L>,
) -> Result<Tri, NoMemory>
    requires ready { IsReady pass.now }
    requires fit { IsFit (length pass.now.rows.now) (element_in e.now) }
    requires room { HasRoom pass.now.cells (8 * nodes_in (element_in e.now)) before.now }
    ensures value { IfOk result (λ t. t ≡ followed (pass_of pass.now) before.now (element_in e.now)
        (table_of (pass_of pass.now) (element_in e.now))) }
    ensures ticks { steps.new ≤ steps.old
        + (ticks_of pass.now.cells (element_in e.now) + item_ticks pass.now.cells (element_in e.now)) }
{
    match e {
        Element::Event(number) => then_row(before, pass.row(*number), steps),
        Element::Group(_, _) | Element::Span(_, _) => {
            let table = table_of(pass, e, steps)?;
            then(before, &table, steps)
        }
    }
}

/// Elements beside each other, and beside the table of others.
#[cycle(tables)]
pub(crate) fn side_by_side<L: Ledger>(
    pass: &Pass,
    others: Tri,
    items: &[Element],
    steps: &mut Steps<L>,
) -> Result<Tri, NoMemory>
    requires ready { IsReady pass.now }
    requires fit { AreFit (length pass.now.rows.now) (all_in items.now) }
    requires room { HasRoom pass.now.cells (8 * nodes_among (all_in items.now)) others }
    ensures value { IfOk result (λ t. t ≡ side_by_side (pass_of pass.now) others (all_in items.now)) }
    ensures ticks { steps.new ≤ steps.old + side_by_side_ticks pass.now.cells (all_in items.now) }
{
    let mut table = others;
    for e in items {
        table = beside(&table, &table_of(pass, e, steps)?, steps)?;
    }
    Ok(table)
}
