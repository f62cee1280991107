//! Marginals by one pass of tables for each cell: the event is held there, and what the tables have in all is its part.
ghost use Rattle.std.specs.Prelude.{◌≡◌, ◌^◌, ◌<◌, All, IfOk, OnOk};
ghost use Rattle.cg_enc.specs.Enclosure.{IsExponent};
ghost use Rattle.cg_table.specs.Table.{table_reach};

use super::scene::{Scene, last};
use crate::ends::FAR;
use crate::marginals::LOSS;
use cg_enc::Enc;
use cg_like::{covers, weights};
use cg_marginal::{Marginal, finish};
use cg_table::{Row, Steps, Tri, after_group, before_group, beside, of_row, spanned, then, total};
use std::alloc::Global;
use std::sync::ledger::Ledger;
use std::test::Fail;

// A table, and how many of its events take a pair of Boundaries from further out.
type Part = (Tri, u32);

// The rows of all events, the event that is held at a cell, and the parts of the model so far.
#[derive(Drop)]
struct Pass {
    alloc: Global,
    cells: usize,
    rows: Vec<Row>,
    event: u32,
    cell: usize,
    parts: Vec<Part>,
}

// An entry, or zero where it isn't kept.
fn kept(entry: Enc, here: bool) -> Enc
    ensures { IsExponent (2 ^ 60) entry.exp → IsExponent (2 ^ 60) result.exp }
{
    if here {
        return entry;
    }
    Enc::zero()
}

fn row_only(alloc: Global, row: &Row, cell: usize) -> Result<Row, Fail> {
    let mut only = Row::new(alloc);
    for c in 0..row.len() {
        only.push(kept(row.get(c), c == cell))?;
    }
    Ok(only)
}

fn table_only(alloc: Global, t: &Tri, cell: usize) -> Result<Tri, Fail> {
    let cells = t.cells();
    let mut entries = Vec::new(alloc);
    for a in 0..cells {
        push_only(&mut entries, t, cell, a)?;
    }
    if cells > 512 || entries.len() > 0x8_0000 || 2 * entries.len() != cells * (cells + 1) {
        return Err("another number of entries".into());
    }
    Ok(Tri::of_entries(cells, entries))
}

fn push_only(entries: &mut Vec<Enc>, t: &Tri, cell: usize, a: usize) -> Result<(), Fail>
    requires { All (λ e. IsExponent (2 ^ 60) e.exp) entries.old.items }
    ensures { OnOk result (All (λ e. IsExponent (2 ^ 60) e.exp) entries.new.items) }
{
    for b in a..t.cells() {
        entries.push(kept(t.get(a, b), b == cell))?;
    }
    Ok(())
}

impl Pass {
    fn new(alloc: Global, scene: &Scene, event: u32, cell: usize) -> Result<Pass, Fail> {
        let curve = last(&scene.curves);
        let mut rows = Vec::new(alloc);
        for number in 0..scene.model.events() {
            let dating = scene.model.dating(number);
            covers(dating, &scene.grid, curve)?;
            let row = weights(alloc, dating, &scene.grid, curve)?;
            if number == event {
                rows.push(row_only(alloc, &row, cell)?)?;
            } else {
                rows.push(row)?;
            }
        }
        let (cells, parts) = (scene.grid.cells(), Vec::new(alloc));
        Ok(Pass {
            alloc,
            cells,
            rows,
            event,
            cell,
            parts,
        })
    }

    // Takes the last part, where it is on so many cells and reaches little.
    fn last(&mut self) -> Result<Part, Fail>
        ensures same { self.new.cells ≡ self.old.cells }
        ensures cells { IfOk result (λ part. part.0.cells ≡ self.old.cells) }
        ensures near { IfOk result (λ part. table_reach part.0 < 2 ^ 19) }
    {
        let part = self.parts.pop().ok_or("too few parts")?;
        if part.0.cells() != self.cells || part.0.reach() >= 0x8_0000 {
            return Err("a table that doesn't fit".into());
        }
        Ok(part)
    }

    // The item of a span, by its segment and the number of the Boundary behind it.
    fn span<L: Ledger>(&mut self, number: u32, steps: &mut Steps<L>) -> Result<Tri, Fail> {
        let (segment, open) = self.last()?;
        let span = spanned(&segment, open, steps)?;
        if number == self.event {
            return table_only(self.alloc, &span, self.cell);
        }
        Ok(span)
    }

    // The last two parts, in order or side by side.
    fn both<L: Ledger>(&mut self, in_order: bool, steps: &mut Steps<L>) -> Result<Part, Fail> {
        let second = self.last()?;
        let first = self.last()?;
        let table = if in_order {
            then(&first.0, &second.0, steps)?
        } else {
            beside(&first.0, &second.0, steps)?
        };
        Ok((table, first.1.saturating_add(second.1)))
    }

    // What a byte makes of the parts before it: a small letter is an event, and a capital one the Boundary behind a
    // segment; `+` is an After and `-` a Before group, `|` is side by side, and `;` in order.
    fn next<L: Ledger>(&mut self, byte: u8, steps: &mut Steps<L>) -> Result<Part, Fail> {
        Ok(match byte {
            b'a'..=b'z' => {
                let row = self.rows.get((byte - b'a') as usize).ok_or("no event")?;
                (of_row(self.alloc, row)?, 1)
            }
            b'A'..=b'Z' => (self.span((byte - b'A') as u32, steps)?, 1),
            b'+' => (after_group(&self.last()?.0)?, 0),
            b'-' => (before_group(&self.last()?.0)?, 0),
            _ => self.both(byte == b';', steps)?,
        })
    }

    // All that the table has which a text makes.
    fn whole<L: Ledger>(&mut self, text: &str, steps: &mut Steps<L>) -> Result<Enc, Fail>
        ensures { IfOk result (λ whole. IsExponent (2 ^ 60) whole.exp) }
    {
        for byte in text.as_bytes() {
            let part = self.next(*byte, steps)?;
            self.parts.push(part)?;
        }
        let whole = total(&self.last()?.0);
        if whole.exp() < -FAR || FAR < whole.exp() {
            return Err("a whole that is too far".into());
        }
        Ok(whole)
    }
}

/// The marginal of an event, by the text of how the model's table is made.
pub(super) fn pinned_marginal<L: Ledger>(
    alloc: Global,
    scene: &Scene,
    event: u32,
    text: &str,
    steps: &mut Steps<L>,
) -> Result<Marginal, Fail> {
    let mut sums = Row::new(alloc);
    for cell in 0..scene.grid.cells() {
        let mut pass = Pass::new(alloc, scene, event, cell)?;
        sums.push(pass.whole(text, steps)?)?;
    }
    if sums.len() == 0 || sums.len() > 512 || sums.loss() > LOSS || sums.reach() >= 0x10_0000 {
        return Err("sums that don't fit".into());
    }
    Ok(finish(alloc, &sums)?)
}
