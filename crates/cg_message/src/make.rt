//! The making of messages, each by those of its parts.
ghost use Rattle.std.specs.Prelude.{◌≡◌, ◌+◌, ◌<◌, ◌≤◌, All, false, IfOk, IfSome, length};
ghost use Rattle.std.specs.Arc.{arc_value};
ghost use Rattle.cg_meaning.specs.Cover.{AreCovered, IsCovered};
ghost use Rattle.cg_meaning.specs.Posterior.{IsMarginal};
ghost use Rattle.cg_meaning.specs.Scene.{scene_of};
ghost use Rattle.cg_meaning.specs.Tree.{count, datings_of, more, nodes_of_all, none, root_of};
ghost use Rattle.cg_model.specs.Dating.{dating_of};
ghost use Rattle.cg_model.specs.Event.{is_event};
ghost use Rattle.cg_model.specs.Limits.{IsInRange, IsModel, IsWithinLimits};
ghost use Rattle.cg_model.specs.Node.{tree_of};
ghost use Rattle.cg_marginal.specs.Pairs.{ArePairs};
ghost use Rattle.cg_part.specs.Elements.{element_of};
ghost use Rattle.cg_recipe.specs.Recipe.{parts_of, recipe, table_of};
ghost use Rattle.cg_code.specs.Code.{code_of};
ghost use Rattle.cg_code.specs.Content as content;
ghost use Rattle.cg_message.specs.Curve.{rows_at};
ghost use Rattle.cg_message.specs.Parts.{AreWayGot, MembersAreGot, node_at};
ghost use Rattle.cg_message.specs.Pass.{IsFinished};
ghost use Rattle.cg_message.specs.Ticks.{part_ticks, table_ticks};
ghost use Rattle.cg_message.specs.Value.{message_of, pass_in, value_of, HasValue};

use crate::arrange::{element_of, members_of};
use crate::body::Body;
use crate::datings::{push_all, push_datings};
use crate::down::parts_beside;
use crate::message::Message;
use crate::parts::Parts;
use crate::pass::Pass;
use crate::rows::{are_read, curve_of, spot_rows};
use crate::tables::group_table;
use cg_code::Code;
use cg_context::root;
use cg_curve::Curves;
use cg_like::weights;
use cg_marginal::finish;
use cg_model::{Dating, Grid, ModelTree, Node};
use cg_num::NoMemory;
use cg_recipe::recipes_are_right;
use cg_table::{Row, Steps, Tri};
use std::alloc::Global;
use std::sync::Arc;
use std::sync::ledger::Ledger;

/// The row of weights of a dating, one for each cell, the oldest first.
///
/// `code` is that of the row. `curve` is the number of the curve, counted from 1, and 0 for none.
pub fn make_row(
    alloc: Global,
    code: Arc<Code>,
    d: &Dating,
    g: &Grid,
    curves: &Arc<Curves>,
    curve: u8,
) -> Result<Message, NoMemory>
    requires code { arc_value code ≡ code_of (content.Row (dating_of d.now)) g.now curve }
    requires curve { curve ≤ length (arc_value curves.now) }
    requires ranged { IsInRange (dating_of d.now) }
    requires covered { IsCovered (scene_of g.now (rows_at (arc_value curves.now) curve)) (dating_of d.now) }
    ensures message { IfOk result (λ m. m ≡ message_of (arc_value curves.now) (content.Row (dating_of d.now)) g.now curve) }
    ensures value { IfOk result (λ m.
        HasValue m (value_of (scene_of g.now (rows_at (arc_value curves.now) curve)) (content.Row (dating_of d.now)))) }
{
    let served = curve_of(curves, curve);
    are_read(g, served);
    let row = weights(alloc, d, g, served)?;
    Message::new(code, Body::Row(row), curves)
}

/// The table of the group at a place of a model, by the messages of its members: those of leaves with an error and of
/// groups stand at their places.
///
/// `code` is that of the table. Each product of two enclosures is a step.
pub fn make_table<L: Ledger>(
    alloc: Global,
    code: Arc<Code>,
    m: &ModelTree,
    place: u32,
    g: &Grid,
    curves: &Arc<Curves>,
    curve: u8,
    parts: &Parts,
    steps: &mut Steps<L>,
) -> Result<Message, NoMemory>
    requires code { arc_value code ≡ code_of (content.Table (node_at m.now.top place)) g.now curve }
    requires place { place < length (nodes_of_all m.now.top) }
    requires group { is_event (node_at m.now.top place) ≡ false }
    requires curve { curve ≤ length (arc_value curves.now) }
    requires covered { AreCovered (node_at m.now.top place) (scene_of g.now (rows_at (arc_value curves.now) curve)) }
    requires parts { MembersAreGot (record { parts = parts.now; grid = g.now; curves = arc_value curves.now; curve = curve })
        place (node_at m.now.top place) }
    ensures message { IfOk result (λ t.
        t ≡ message_of (arc_value curves.now) (content.Table (node_at m.now.top place)) g.now curve) }
    ensures value { IfOk result (λ t.
        HasValue t (value_of (scene_of g.now (rows_at (arc_value curves.now) curve)) (content.Table (node_at m.now.top place)))) }
    ensures ticks { steps.new ≤ steps.old + table_ticks g.now.cells (element_of 0 (node_at m.now.top place)) }
{
    prove!(place < m.size());
    let node = m.node(place);
    let table = node_table(alloc, node, place, g, curves, curve, parts, steps)?;
    are_read(g, curve_of(curves, curve));
    Message::new(code, Body::Table(table), curves)
}

// The table of a group that is a node of a model.
fn node_table<L: Ledger>(
    alloc: Global,
    node: &Node,
    place: u32,
    g: &Grid,
    curves: &Curves,
    curve: u8,
    parts: &Parts,
    steps: &mut Steps<L>,
) -> Result<Tri, NoMemory>
    requires limits { IsWithinLimits (more (tree_of node.now) none) }
    requires ranged { All IsInRange (datings_of (tree_of node.now)) }
    requires place { place ≤ 160 }
    requires group { is_event (tree_of node.now) ≡ false }
    requires curve { curve ≤ length curves.now }
    requires covered { AreCovered (tree_of node.now) (scene_of g.now (rows_at curves.now curve)) }
    requires parts { MembersAreGot (record { parts = parts.now; grid = g.now; curves = curves.now; curve = curve })
        place (tree_of node.now) }
    ensures value { IfOk result (λ t.
        t ≡ table_of (pass_in (scene_of g.now (rows_at curves.now curve)) (tree_of node.now))
        (element_of 0 (tree_of node.now))) }
    ensures ticks { steps.new ≤ steps.old + table_ticks g.now.cells (element_of 0 (tree_of node.now)) }
{
    let mut datings = Vec::new(alloc);
    push_datings(&mut datings, node)?;
    let served = curve_of(curves, curve);
    are_read(g, served);
    let made = spot_rows(alloc, &datings, g, served)?;
    let pass = Pass::new(alloc, g, curves, curve, &datings, &made, parts);
    let e = element_of(alloc, 0, place, node)?;
    group_table(&pass, &e, steps)
}

/// The marginal of an event, by the messages of all that is beside the way from the root to it, and of its own row where
/// its dating has an error.
///
/// `code` is that of the marginal. Events are counted from 0 in the order of the text. Each product of two enclosures is a
/// step.
pub fn make_marginal<L: Ledger>(
    alloc: Global,
    code: Arc<Code>,
    m: &ModelTree,
    event: u32,
    g: &Grid,
    curves: &Arc<Curves>,
    curve: u8,
    parts: &Parts,
    steps: &mut Steps<L>,
) -> Result<Message, NoMemory>
    requires code { arc_value code ≡ code_of (content.Marginal m.now.top event) g.now curve }
    requires event { event < count (root_of m.now) }
    requires curve { curve ≤ length (arc_value curves.now) }
    requires covered { AreCovered (root_of m.now) (scene_of g.now (rows_at (arc_value curves.now) curve)) }
    requires parts { AreWayGot (record { parts = parts.now; grid = g.now; curves = arc_value curves.now; curve = curve })
        event 0 0 m.now.top }
    ensures message { IfOk result (λ t. t ≡ message_of (arc_value curves.now) (content.Marginal m.now.top event) g.now curve) }
    ensures value { IfOk result (λ t.
        HasValue t (value_of (scene_of g.now (rows_at (arc_value curves.now) curve)) (content.Marginal m.now.top event))) }

    // The pairs that it holds, which are the recipe's, are right and at most 3 wide.
    ensures holds { IfOk result (λ t. IsMarginal (root_of m.now) (scene_of g.now (rows_at (arc_value curves.now) curve)) event
        (recipe (root_of m.now) (scene_of g.now (rows_at (arc_value curves.now) curve)) event)) }
    ensures narrow { IfOk result (λ t.
        IfSome (recipe (root_of m.now) (scene_of g.now (rows_at (arc_value curves.now) curve)) event) ArePairs) }
    ensures ticks { steps.new ≤ steps.old + part_ticks g.now.cells event (element_of 0 (root_of m.now)) }
{
    recipes_are_right();
    are_read(g, curve_of(curves, curve));
    let sums = sums_at(alloc, m, event, g, curves, curve, parts, steps)?;
    let marginal = finish(alloc, &sums)?;
    Message::new(code, Body::Marginal(marginal), curves)
}

// What the datings with the event at each cell have in all.
fn sums_at<L: Ledger>(
    alloc: Global,
    m: &ModelTree,
    event: u32,
    g: &Grid,
    curves: &Curves,
    curve: u8,
    parts: &Parts,
    steps: &mut Steps<L>,
) -> Result<Row, NoMemory>
    requires event { event < count (root_of m.now) }
    requires curve { curve ≤ length curves.now }
    requires covered { AreCovered (root_of m.now) (scene_of g.now (rows_at curves.now curve)) }
    requires parts { AreWayGot (record { parts = parts.now; grid = g.now; curves = curves.now; curve = curve })
        event 0 0 m.now.top }
    ensures value { IfOk result (λ sums.
        sums ≡ parts_of (pass_in (scene_of g.now (rows_at curves.now curve)) (root_of m.now)) event
        (element_of 0 (root_of m.now))) }
    ensures finished { IfOk result IsFinished }
    ensures model { IsModel m.now.top }
    ensures ticks { steps.new ≤ steps.old + part_ticks g.now.cells event (element_of 0 (root_of m.now)) }
{
    let mut datings = Vec::new(alloc);
    push_all(&mut datings, m.top())?;
    let served = curve_of(curves, curve);
    are_read(g, served);
    let made = spot_rows(alloc, &datings, g, served)?;
    let pass = Pass::new(alloc, g, curves, curve, &datings, &made, parts);
    let members = members_of(alloc, 0, 0, m.top())?;
    let x = root(alloc, g.cells())?;
    parts_beside(&pass, event, members.items(), x, steps)
}
