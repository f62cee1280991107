//! The tables of elements. That of a group within is borrowed from its message.
ghost use Rattle.std.specs.Prelude.{◌≡◌, ◌+◌, ◌*◌, ◌≤◌, IfOk};
ghost use Rattle.cg_recipe.specs.Bounds.{nodes_in};
ghost use Rattle.cg_recipe.specs.Recipe.{followed, in_order, side_by_side, table_of};
ghost use Rattle.cg_recipe.specs.Ticks.{beside_ticks, item_ticks};
ghost use Rattle.cg_table.specs.Formulas.{beside_of};
ghost use Rattle.cg_message.specs.Element.{all_in, all_placed, element_in, placed_in};
ghost use Rattle.cg_message.specs.Pass.{AreHeld, AreSmall, HasMembers, HasRoom, IsHeld, IsNoGroup};
ghost use Rattle.cg_message.specs.Pass.{IsReady, IsSmall, nodes_among, pass_of};
ghost use Rattle.cg_message.specs.Ticks.{in_order_ticks, side_by_side_ticks, table_ticks, ticks_of};

use crate::element::Element;
use crate::pass::Pass;
use crate::size::open_in;
use cg_model::GroupKind;
use cg_num::NoMemory;
use cg_table::{
    Steps, Tri, after_group, before_group, beside, identity, of_row, spanned, then, then_row,
};
use std::sync::ledger::Ledger;

/// The table of a group, by those of its members.
pub(crate) fn group_table<L: Ledger>(
    pass: &Pass,
    e: &Element,
    steps: &mut Steps<L>,
) -> Result<Tri, NoMemory>
    requires ready { IsReady pass.now }
    requires small { IsSmall (element_in e.now) }
    requires members { HasMembers pass.now (placed_in e.now) }
    ensures value { IfOk result (λ t. t ≡ table_of (pass_of pass.now) (element_in e.now)) }
    ensures ticks { steps.new ≤ steps.old + table_ticks pass.now.grid.cells (element_in e.now) }
{
    match e {
        Element::Group(kind, _, elements) => {
            let nothing = identity(pass.alloc(), pass.cells())?;
            let items = elements.items();
            match kind {
                GroupKind::Sequence => in_order(pass, nothing, items, steps),
                GroupKind::Phase => side_by_side(pass, nothing, items, steps),
                GroupKind::After => after_group(&side_by_side(pass, nothing, items, steps)?),
                GroupKind::Before => before_group(&side_by_side(pass, nothing, items, steps)?),
            }
        }
        Element::Event(_, _) | Element::Span(_, _) => unreachable!(),
    }
}

/// The table of an event or a span.
#[cycle(tables)]
pub(crate) fn table_of<L: Ledger>(
    pass: &Pass,
    e: &Element,
    steps: &mut Steps<L>,
) -> Result<Tri, NoMemory>
    requires ready { IsReady pass.now }
    requires small { IsSmall (element_in e.now) }
    requires held { IsHeld pass.now (placed_in e.now) }
    requires no_group { IsNoGroup (placed_in e.now) }
    ensures value { IfOk result (λ t. t ≡ table_of (pass_of pass.now) (element_in e.now)) }
    ensures ticks { steps.new ≤ steps.old + ticks_of pass.now.grid.cells (element_in e.now) }
{
    match e {
        Element::Event(number, place) => of_row(pass.alloc(), pass.row(*number, *place)),
        Element::Span(elements, _) => {
            let nothing = identity(pass.alloc(), pass.cells())?;
            let items = elements.items();
            let segment = in_order(pass, nothing, items, steps)?;
            spanned(&segment, open_in(items), steps)
        }
        Element::Group(_, _, _) => unreachable!(),
    }
}

/// Elements one after another, onto the table of what precedes them.
#[cycle(tables)]
pub(crate) fn in_order<L: Ledger>(
    pass: &Pass,
    before: Tri,
    items: &[Element],
    steps: &mut Steps<L>,
) -> Result<Tri, NoMemory>
    requires ready { IsReady pass.now }
    requires small { AreSmall (all_in items.now) }
    requires held { AreHeld pass.now (all_placed items.now) }
    requires room { HasRoom pass.now.grid.cells (8 * nodes_among (all_in items.now)) before }
    ensures value { IfOk result (λ t. t ≡ in_order (pass_of pass.now) before (all_in items.now)) }
    ensures ticks { steps.new ≤ steps.old + in_order_ticks pass.now.grid.cells (all_in items.now) }
{
    let mut table = before;
    for e in items {
        table = followed(pass, &table, e, steps)?;
    }
    Ok(table)
}

// An element after what a table has.
#[cycle(tables)]
fn followed<L: Ledger>(
    pass: &Pass,
    before: &Tri,
    e: &Element,
    steps: &mut Steps<L>,
) -> Result<Tri, NoMemory>
    requires ready { IsReady pass.now }
    requires small { IsSmall (element_in e.now) }
    requires held { IsHeld pass.now (placed_in e.now) }
    requires room { HasRoom pass.now.grid.cells (8 * nodes_in (element_in e.now)) before.now }
    ensures value { IfOk result (λ t. t ≡ followed (pass_of pass.now) before.now (element_in e.now)
        (table_of (pass_of pass.now) (element_in e.now))) }
    ensures ticks { steps.new ≤ steps.old
        + (ticks_of pass.now.grid.cells (element_in e.now) + item_ticks pass.now.grid.cells (element_in e.now)) }
{
    match e {
        Element::Event(number, place) => then_row(before, pass.row(*number, *place), steps),
        Element::Group(_, place, _) => then(before, pass.table(*place), steps),
        Element::Span(_, _) => {
            let table = table_of(pass, e, steps)?;
            then(before, &table, steps)
        }
    }
}

/// Elements beside each other, and beside the table of others.
pub(crate) fn side_by_side<L: Ledger>(
    pass: &Pass,
    others: Tri,
    items: &[Element],
    steps: &mut Steps<L>,
) -> Result<Tri, NoMemory>
    requires ready { IsReady pass.now }
    requires small { AreSmall (all_in items.now) }
    requires held { AreHeld pass.now (all_placed items.now) }
    requires room { HasRoom pass.now.grid.cells (8 * nodes_among (all_in items.now)) others }
    ensures value { IfOk result (λ t. t ≡ side_by_side (pass_of pass.now) others (all_in items.now)) }
    ensures ticks { steps.new ≤ steps.old + side_by_side_ticks pass.now.grid.cells (all_in items.now) }
{
    let mut table = others;
    for e in items {
        table = with_beside(pass, &table, e, steps)?;
    }
    Ok(table)
}

// An element beside what a table has.
fn with_beside<L: Ledger>(
    pass: &Pass,
    others: &Tri,
    e: &Element,
    steps: &mut Steps<L>,
) -> Result<Tri, NoMemory>
    requires ready { IsReady pass.now }
    requires small { IsSmall (element_in e.now) }
    requires held { IsHeld pass.now (placed_in e.now) }
    requires room { HasRoom pass.now.grid.cells (8 * nodes_in (element_in e.now)) others.now }
    ensures value { IfOk result (λ t. t ≡ beside_of others.now (table_of (pass_of pass.now) (element_in e.now))) }
    ensures ticks { steps.new ≤ steps.old
        + (ticks_of pass.now.grid.cells (element_in e.now) + beside_ticks pass.now.grid.cells) }
{
    match e {
        Element::Group(_, place, _) => beside(others, pass.table(*place), steps),
        Element::Event(_, _) | Element::Span(_, _) => {
            let table = table_of(pass, e, steps)?;
            beside(others, &table, steps)
        }
    }
}
