//! The calls on a real runtime: their entries are the expected ones, and those of the plain calls.
ghost use Rattle.std.specs.Prelude.{◌≡◌, ◌<◌, IfOk};
ghost use Rattle.cg_table.specs.Table.{table_reach};

use crate::cases::{CASES, Case};
use crate::ends::{Ends, ends, entries};
use cg_context::{Context, back, into_sequence};
use cg_table::{Steps, Tri, then};
use cg_wide::{back_wide, into_sequence_wide, then_wide};
use std::alloc::Global;
use std::marker::Brand;
use std::process::Abort;
use std::sync::ledger::{Blank, Ledger};
use std::test::Fail;

// A table with so many entries, made of the numbers from `first` on.
fn tri(rt: &impl Abort, alloc: Global, cells: usize, kept: usize, first: u64) -> Result<Tri, Fail>
    ensures cells { IfOk result (λ t. t.cells ≡ cells) }
    ensures reach { IfOk result (λ t. table_reach t ≡ 1) }
{
    let made = Tri::of_entries(cells, entries(rt, alloc, cells, kept, first)?);
    assert_eq!(rt; made.reach(), 1);
    Ok(made)
}

fn context(
    rt: &impl Abort,
    alloc: Global,
    cells: usize,
    kept: usize,
    first: u64,
) -> Result<Context, Fail>
    ensures cells { IfOk result (λ x. x.cells ≡ cells) }
    ensures reach { IfOk result (λ x. table_reach x ≡ 1) }
{
    let made = Context::of_rows(cells, cells, entries(rt, alloc, cells, kept, first)?);
    assert_eq!(rt; made.reach(), 1);
    Ok(made)
}

fn push_row(list: &mut Vec<Ends>, made: &Tri, a: usize) -> Result<(), Fail> {
    for b in a..made.cells() {
        list.push(ends(made.get(a, b)))?;
    }
    Ok(())
}

// The entries of a table are the expected ones.
fn same(
    rt: &impl Abort,
    alloc: Global,
    call: &str,
    made: &Tri,
    wanted: &[Ends],
) -> Result<(), Fail> {
    let mut list = Vec::new(alloc);
    for a in 0..made.cells() {
        push_row(&mut list, made, a)?;
    }
    assert_eq!(rt; list.as_slice(), wanted, "{call} on {} cells", made.cells());
    Ok(())
}

/// The entries of each call on tables of 1, 2, 3 and 7 cells.
#[test]
fn entries_of_wide_calls(rt: HostRuntime) -> Result<(), Fail> {
    let alloc = rt.alloc();
    for (cells, kept, then, back, into) in &CASES {
        let left = tri(&rt, alloc, *cells, kept[0], 1300)?;
        let right = tri(&rt, alloc, *cells, kept[1], 1400)?;
        let both = context(&rt, alloc, *cells, kept[2], 1500)?;
        let after = then_wide(&rt, alloc, &left, &right)?;
        same(&rt, alloc, "then", &after, then)?;
        let before = back_wide(&rt, alloc, &both, &right)?;
        same(&rt, alloc, "back", before.table(), back)?;
        let item = into_sequence_wide(&rt, alloc, &left, &both)?;
        same(&rt, alloc, "into_sequence", item.table(), into)?;
    }
    Ok(())
}

/// The plain calls have the same entries.
#[test]
fn entries_of_plain_calls(rt: HostRuntime) -> Result<(), Fail> {
    counted::<Brand, _>(&rt, rt.alloc(), Blank::new(1))
}

fn counted<L: Ledger, R: Abort>(rt: &R, alloc: Global, blank: Blank) -> Result<(), Fail>
    requires name { blank.name ≡ L.name }
    requires parts { blank.parts ≡ L.parts }
    requires some { 0 < L.parts }
{
    let mut steps = Steps::<L>::open(blank);
    for case in &CASES {
        plain(rt, alloc, case, &mut steps)?;
    }
    Ok(())
}

fn plain<L: Ledger>(
    rt: &impl Abort,
    alloc: Global,
    case: &Case,
    steps: &mut Steps<L>,
) -> Result<(), Fail> {
    let left = tri(rt, alloc, case.0, case.1[0], 1300)?;
    let right = tri(rt, alloc, case.0, case.1[1], 1400)?;
    let both = context(rt, alloc, case.0, case.1[2], 1500)?;
    let after = then(&left, &right, steps)?;
    same(rt, alloc, "then", &after, case.2)?;
    let before = back(&both, &right, steps)?;
    same(rt, alloc, "back", before.table(), case.3)?;
    let item = into_sequence(&left, &both, steps)?;
    same(rt, alloc, "into_sequence", item.table(), case.4)?;
    Ok(())
}
