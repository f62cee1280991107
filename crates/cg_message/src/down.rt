//! The way down from the root to an event, and the event's part at each cell. A context is given away on the way, so that
//! none of those above it is kept.
ghost use Rattle.std.specs.Prelude.{◌≡◌, ◌+◌, ◌*◌, ◌^◌, ◌<◌, ◌≤◌, IfOk, length, true};
ghost use Rattle.cg_enc.specs.Rounding.{times};
ghost use Rattle.cg_part.specs.Elements.{has, has_among, open_in};
ghost use Rattle.cg_table.specs.Formulas.{identity_of};
ghost use Rattle.cg_table.specs.Losses.{greatest_reach};
ghost use Rattle.cg_table.specs.Table.{row_entry, table_reach};
ghost use Rattle.cg_context.specs.Formulas.{into_after_of, into_before_of, into_phase_of, into_sequence_of, into_span_of, row_by};
ghost use Rattle.cg_recipe.specs.Bounds.{events_among, nodes_in};
ghost use Rattle.cg_recipe.specs.Recipe.{part_at, part_beside, part_in_item, part_in_order, side_by_side};
ghost use Rattle.cg_recipe.specs.Ticks.{beside_ticks, item_ticks, spanned_ticks};
ghost use Rattle.cg_message.specs.Ticks.{part_beside_ticks, part_in_order_ticks, part_ticks, side_by_side_ticks};
ghost use Rattle.cg_message.specs.Element.{all_in, all_placed, element_in, placed_in};
ghost use Rattle.cg_message.specs.Pass.{AreHeld, AreOnWay, AreSmall, HasRoom, HasRow, HaveRoom};
ghost use Rattle.cg_message.specs.Pass.{IsOnWay, IsReady, IsSmall, nodes_among, pass_of};

use crate::element::Element;
use crate::pass::Pass;
use crate::preceding::preceding_all;
use crate::size::{around, open_in};
use crate::tables::{in_order, side_by_side, table_of};
use cg_context::{
    Context, at_end, at_leaf, at_member, into_after, into_before, into_phase, into_sequence,
    into_span,
};
use cg_model::GroupKind;
use cg_num::NoMemory;
use cg_table::{Row, Steps, Tri, identity, identity_rows};
use std::sync::ledger::Ledger;

// The part of an event at each cell, by the context of an element that has the event.
#[cycle(down)]
fn parts_at<L: Ledger>(
    pass: &Pass,
    event: u32,
    e: &Element,
    x: Context,
    steps: &mut Steps<L>,
) -> Result<Row, NoMemory>
    requires ready { IsReady pass.now }
    requires small { IsSmall (element_in e.now) }
    requires way { IsOnWay pass.now event (placed_in e.now) }
    requires has { has event (element_in e.now) ≡ true }
    requires room { HasRoom pass.now.grid.cells (8 * nodes_in (element_in e.now)) x }
    ensures value { IfOk result (λ r. r
        ≡ row_by pass.now.grid.cells (λ cell. part_at (pass_of pass.now) event cell (element_in e.now) x)) }
    ensures ticks { steps.new ≤ steps.old + part_ticks pass.now.grid.cells event (element_in e.now) }
{
    match e {
        Element::Event(number, place) => weighed(pass, *number, *place, &at_leaf(&x)?),
        Element::Group(kind, _, elements) => {
            let items = elements.items();
            match kind {
                GroupKind::Sequence => parts_in_order(pass, event, items, x, steps),
                GroupKind::Phase => parts_beside(pass, event, items, x, steps),
                GroupKind::After => parts_beside(pass, event, items, within_after(x)?, steps),
                GroupKind::Before => parts_beside(pass, event, items, within_before(x)?, steps),
            }
        }
        Element::Span(elements, closing) => {
            if event == *closing {
                let span = table_of(pass, e, steps)?;
                return at_end(&x, &span, steps);
            }
            let items = elements.items();
            let inner = within_span(items, x, steps)?;
            parts_in_order(pass, event, items, inner, steps)
        }
    }
}

// Among items of a Sequence, by the context of what they are in.
#[cycle(down)]
fn parts_in_order<L: Ledger>(
    pass: &Pass,
    event: u32,
    items: &[Element],
    x: Context,
    steps: &mut Steps<L>,
) -> Result<Row, NoMemory>
    requires ready { IsReady pass.now }
    requires small { AreSmall (all_in items.now) }
    requires way { AreOnWay pass.now event (all_placed items.now) }
    requires has { has_among event (all_in items.now) ≡ true }
    requires room { HasRoom pass.now.grid.cells (8 * nodes_among (all_in items.now) + 3) x }
    ensures value { IfOk result (λ r. r ≡ row_by pass.now.grid.cells (λ cell.
        part_in_order (pass_of pass.now) event cell (identity_of pass.now.grid.cells) (all_in items.now) x)) }
    ensures ticks { steps.new ≤ steps.old + part_in_order_ticks pass.now.grid.cells event (all_in items.now) }
{
    let (earlier, own, later) = around(event, items);
    let nothing = identity_rows(pass.alloc(), pass.cells(), x.live())?;
    let before = in_order(pass, nothing, earlier, steps)?;
    let v = preceding_all(pass, later, x, steps)?;
    parts_in_item(pass, event, own, before, v, steps)
}

// In an item, by the table of what precedes it and the context of what it ends.
#[cycle(down)]
fn parts_in_item<L: Ledger>(
    pass: &Pass,
    event: u32,
    e: &Element,
    before: Tri,
    v: Context,
    steps: &mut Steps<L>,
) -> Result<Row, NoMemory>
    requires ready { IsReady pass.now }
    requires small { IsSmall (element_in e.now) }
    requires way { IsOnWay pass.now event (placed_in e.now) }
    requires has { has event (element_in e.now) ≡ true }
    requires room { HaveRoom pass.now.grid.cells (8 * nodes_in (element_in e.now) + 1) before v }
    ensures value { IfOk result (λ r. r ≡ row_by pass.now.grid.cells (λ cell.
        part_in_item (pass_of pass.now) cell before v (element_in e.now)
        (part_at (pass_of pass.now) event cell (element_in e.now) (into_sequence_of before v)))) }
    ensures ticks { steps.new ≤ steps.old
        + (part_ticks pass.now.grid.cells event (element_in e.now) + item_ticks pass.now.grid.cells (element_in e.now)) }
{
    match e {
        Element::Event(number, place) => weighed(
            pass,
            *number,
            *place,
            &at_member(&before, &v, steps)?,
        ),
        Element::Group(_, _, _) | Element::Span(_, _) => {
            let inner = within_item(before, v, steps)?;
            parts_at(pass, event, e, inner, steps)
        }
    }
}

/// Among members beside each other, by the context of their Phase.
#[cycle(down)]
pub(crate) fn parts_beside<L: Ledger>(
    pass: &Pass,
    event: u32,
    items: &[Element],
    x: Context,
    steps: &mut Steps<L>,
) -> Result<Row, NoMemory>
    requires ready { IsReady pass.now }
    requires small { AreSmall (all_in items.now) }
    requires way { AreOnWay pass.now event (all_placed items.now) }
    requires has { has_among event (all_in items.now) ≡ true }
    requires room { HasRoom pass.now.grid.cells (8 * nodes_among (all_in items.now) + 3) x }
    ensures value { IfOk result (λ r. r ≡ row_by pass.now.grid.cells (λ cell.
        part_beside (pass_of pass.now) event cell (identity_of pass.now.grid.cells) (all_in items.now) x)) }
    ensures ticks { steps.new ≤ steps.old + part_beside_ticks pass.now.grid.cells event (all_in items.now) }
{
    let (earlier, own, later) = around(event, items);
    let inner = beside_others(pass, earlier, later, x, steps)?;
    parts_at(pass, event, own, inner, steps)
}

// The context of a member of a Phase, by the others and the Phase's.
fn beside_others<L: Ledger>(
    pass: &Pass,
    earlier: &[Element],
    later: &[Element],
    x: Context,
    steps: &mut Steps<L>,
) -> Result<Context, NoMemory>
    requires ready { IsReady pass.now }
    requires earlier { AreSmall (all_in earlier.now) }
    requires later { AreSmall (all_in later.now) }
    requires earlier_held { AreHeld pass.now (all_placed earlier.now) }
    requires later_held { AreHeld pass.now (all_placed later.now) }
    requires room { HasRoom pass.now.grid.cells
        (8 * nodes_among (all_in earlier.now) + 8 * nodes_among (all_in later.now) + 1) x }
    ensures value { IfOk result (λ r. r ≡ into_phase_of x (side_by_side (pass_of pass.now)
        (side_by_side (pass_of pass.now) (identity_of pass.now.grid.cells) (all_in earlier.now)) (all_in later.now))) }
    ensures ticks { steps.new ≤ steps.old + (side_by_side_ticks pass.now.grid.cells (all_in earlier.now)
        + side_by_side_ticks pass.now.grid.cells (all_in later.now) + beside_ticks pass.now.grid.cells) }
{
    let nothing = identity(pass.alloc(), pass.cells())?;
    let before = side_by_side(pass, nothing, earlier, steps)?;
    let others = side_by_side(pass, before, later, steps)?;
    into_phase(&x, &others, steps)
}

// The context of an item.
fn within_item<L: Ledger>(
    before: Tri,
    v: Context,
    steps: &mut Steps<L>,
) -> Result<Context, NoMemory>
    requires cells { before.cells ≡ v.cells }
    requires reach { table_reach before + table_reach v < 2 ^ 20 }
    ensures value { IfOk result (λ r. r ≡ into_sequence_of before v) }
    ensures ticks { 6 * steps.new ≤ 6 * steps.old + before.cells * (before.cells + 1) * (before.cells + 2) }
{
    into_sequence(&before, &v, steps)
}

// That of what stands between two Boundaries.
fn within_span<L: Ledger>(
    items: &[Element],
    x: Context,
    steps: &mut Steps<L>,
) -> Result<Context, NoMemory>
    requires few { events_among (all_in items.now) ≤ 100 }
    requires reach { table_reach x < 2 ^ 20 }
    ensures value { IfOk result (λ r. r ≡ into_span_of x (open_in (all_in items.now))) }
    ensures ticks { steps.new ≤ steps.old + spanned_ticks x.cells (open_in (all_in items.now)) }
{
    into_span(&x, open_in(items), steps)
}

// Those of the Phase of an After group's and of a Before group's members.
fn within_after(x: Context) -> Result<Context, NoMemory>
    requires { table_reach x < 2 ^ 20 }
    ensures { IfOk result (λ r. r ≡ into_after_of x) }
{
    into_after(&x)
}

fn within_before(x: Context) -> Result<Context, NoMemory>
    requires { table_reach x < 2 ^ 20 }
    ensures { IfOk result (λ r. r ≡ into_before_of x) }
{
    into_before(&x)
}

// What an event's cells have, times the event's weights.
fn weighed(pass: &Pass, number: u32, place: u32, row: &Row) -> Result<Row, NoMemory>
    requires ready { IsReady pass.now }
    requires row { HasRow pass.now number place }
    requires cells { length row.now ≡ pass.now.grid.cells }
    requires near { greatest_reach row.now < 2 ^ 20 }
    ensures { IfOk result (λ r. r ≡ row_by pass.now.grid.cells (λ cell.
        times (row_entry row.now cell) (row_entry ((pass_of pass.now).rows number) cell))) }
{
    let weights = pass.row(number, place);
    let mut parts = Row::new(pass.alloc());
    for cell in 0..row.len() {
        let part = row.get(cell).times(&weights.get(cell));
        parts.push(part)?;
    }
    Ok(parts)
}
