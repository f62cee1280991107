//! What the tables of a node are made over.
ghost use Rattle.std.specs.Prelude.{◌≡◌, ◌<◌, ◌≤◌, ℕ, All, length, map};
ghost use Rattle.cg_meaning.specs.Cover.{IsCovered};
ghost use Rattle.cg_meaning.specs.Scene.{scene_of};
ghost use Rattle.cg_model.specs.Dating.{dating_of};
ghost use Rattle.cg_model.specs.Limits.{IsInRange};
ghost use Rattle.cg_like.specs.Likelihood.{IsScene};
ghost use Rattle.cg_part.specs.Elements.{Element};
ghost use Rattle.cg_recipe.specs.Recipe.{table_of};
ghost use Rattle.cg_message.specs.Curve.{rows_at};
ghost use Rattle.cg_message.specs.Pass.{datings_in, pass_of, scene_in, shelf_in, spot_row, HasRow, HasTable, IsReady};

use crate::body::{row_in, table_in};
use crate::parts::Parts;
use cg_curve::Curves;
use cg_like::weights_enclose;
use cg_model::{Dating, Grid};
use cg_table::{Row, Tri};
use std::alloc::Global;

/// A grid and a curve, the datings of events with the rows that are made on the spot, and the messages of all else.
#[derive(Drop)]
pub(crate) struct Pass<'a> {
    alloc: Global,
    grid: Grid,
    curves: &'a Curves,
    curve: u8,
    datings: &'a [Dating],
    made: &'a [Option<Row>],
    parts: &'a Parts,
}

impl<'a> Pass<'a> {
    /// The pass over the events of these datings. Tables take their memory from `alloc`.
    pub(crate) fn new(
        alloc: Global,
        grid: &Grid,
        curves: &'a Curves,
        curve: u8,
        datings: &'a [Dating],
        made: &'a [Option<Row>],
        parts: &'a Parts,
    ) -> Pass<'a>
        requires scene { IsScene (scene_of grid.now (rows_at curves.now curve)) }
        requires ranged { All IsInRange (map dating_of datings.now) }
        requires covered { All (IsCovered (scene_of grid.now (rows_at curves.now curve))) (map dating_of datings.now) }
        requires made { made.now ≡ map (spot_row (scene_of grid.now (rows_at curves.now curve))) (map dating_of datings.now) }
        ensures ready { IsReady result }
        ensures scene { scene_in result ≡ scene_of grid.now (rows_at curves.now curve) }
        ensures datings { datings_in result ≡ map dating_of datings.now }
        ensures shelf { shelf_in result
            ≡ record { parts = parts.now; grid = grid.now; curves = curves.now; curve = curve } }
    {
        weights_enclose();
        Pass {
            alloc,
            grid: *grid,
            curves,
            curve,
            datings,
            made,
            parts,
        }
    }

    /// How many cells there are.
    pub(crate) fn cells(&self) -> usize
        ensures { result ≡ self.now.grid.cells }
    {
        self.grid.cells()
    }

    /// What tables take their memory from.
    pub(crate) fn alloc(&self) -> Global {
        self.alloc
    }

    /// The row of an event at a place.
    pub(crate) fn row(&self, number: u32, place: u32) -> &Row
        requires ready { IsReady self.now }
        requires row { HasRow self.now number place }
        ensures { result.now ≡ (pass_of self.now).rows number }
    {
        if let Some(row) = &self.made[number as usize] {
            return row;
        }
        match self.parts.get(place) {
            Some(message) => row_in(message.body()),
            None => unreachable!(),
        }
    }

    /// The table of a group at a place, by its message.
    pub(crate) fn table(&self, place: u32) -> &Tri
        requires ready { IsReady self.now }
        requires table { (e : Element) × HasTable self.now place e }
        ensures { (e : Element) → HasTable self.now place e → result.now ≡ table_of (pass_of self.now) e }
    {
        match self.parts.get(place) {
            Some(message) => table_in(message.body()),
            None => unreachable!(),
        }
    }
}
