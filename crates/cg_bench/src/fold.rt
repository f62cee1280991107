//! What a call gives of a triangular table and its context, and a check sum of it.
ghost use Rattle.std.specs.Prelude.{◌≡◌, ◌+◌, ◌-◌, ◌*◌, ◌^◌, ◌<◌, ◌≤◌, ℕ, All, IfOk, length, fold};
ghost use Rattle.cg_enc.specs.Enclosure.{IsExponent};
ghost use Rattle.cg_table.specs.Table.{entry, row, start, table_reach};
ghost use Rattle.cg_context.specs.Formulas.{into_sequence_of, root_context};
ghost use Rattle.cg_bench.specs.Fold.{called, check_of, made, made_table, mixed};

use crate::call::Call;
use cg_context::{Context, back, into_sequence, root};
use cg_enc::Enc;
use cg_num::NoMemory;
use cg_table::{Steps, Tri, then};
use std::alloc::Global;
use std::marker::Brand;
use std::sync::ledger::{Blank, Ledger};

/// The most cells of a table.
pub const MOST: usize = 512;

/// The check sum of what a call gives of a table of this many cells, whose entries are made by a rule, and its context.
pub fn check_sum(alloc: Global, call: Call, cells: usize) -> Result<u64, NoMemory>
    requires { cells ≤ 512 }
    ensures { IfOk result (λ sum. sum ≡ check_of (called call cells) cells) }
{
    counted::<Brand>(alloc, call, cells, Blank::new(1))
}

/// The same, with its products counted, for which nobody asks.
fn counted<L: Ledger>(
    alloc: Global,
    call: Call,
    cells: usize,
    blank: Blank,
) -> Result<u64, NoMemory>
    requires few { cells ≤ 512 }
    requires name { blank.name ≡ L.name }
    requires parts { blank.parts ≡ L.parts }
    requires some { 0 < L.parts }
    ensures { IfOk result (λ sum. sum ≡ check_of (called call cells) cells) }
{
    let steps = &mut Steps::<L>::open(blank);
    let made = table(alloc, cells)?;
    match call {
        Call::Then => Ok(check(&then(&made, &made, steps)?)),
        Call::Back => {
            let context = context(&made, steps)?;
            Ok(check(back(&context, &made, steps)?.table()))
        }
        Call::IntoSequence => {
            let context = context(&made, steps)?;
            Ok(check(into_sequence(&made, &context, steps)?.table()))
        }
    }
}

/// A table of entries that are made by a rule.
fn table(alloc: Global, cells: usize) -> Result<Tri, NoMemory>
    requires { cells ≤ 512 }
    ensures value { IfOk result (λ t. t ≡ made_table cells) }
    ensures reach { IfOk result (λ t. table_reach t ≤ 1) }
{
    let mut entries = Vec::new(alloc);
    for place in 0..start(cells) {
        entries.push(made(place as u64))?;
    }
    Ok(Tri::of_entries(cells, entries))
}

/// The context of an item behind this table, in a Sequence that is the whole tree.
fn context<L: Ledger>(made: &Tri, steps: &mut Steps<L>) -> Result<Context, NoMemory>
    requires few { made.now.cells ≤ 512 }
    requires reach { table_reach made.now ≤ 1 }
    ensures value { IfOk result (λ x. x ≡ into_sequence_of made.now (root_context made.now.cells)) }
    ensures reach { IfOk result (λ x. table_reach x ≤ 3) }
{
    let tree = root(made.allocator(), made.cells())?;
    into_sequence(made, &tree, steps)
}

/// The entry at a place, by a rule that spreads its digits.
fn made(place: u64) -> Enc
    ensures value { result ≡ made place }
    ensures near { IsExponent (2 ^ 20) result.exp }
{
    let x = place.wrapping_mul(0x9e37_79b9_7f4a_7c15);
    let hi = 0x4000_0000_0000_0000 + x / 4;
    let places = (x / 0x2000_0000_0000_0000) as i64;
    Enc::of_bounds(hi - x % 1024, hi, -62 - places)
}

/// How many entries a table has.
fn start(cells: usize) -> usize
    requires { cells ≤ 512 }
    ensures { result ≡ start cells cells }
{
    cells * (cells + 1) / 2
}

/// The check sum of all rows of a table.
fn check(t: &Tri) -> u64
    ensures { result ≡ check_of t.now t.now.cells }
{
    let mut sum = 0;
    for a in 0..t.cells() {
        sum = mix(sum, t, a);
    }
    sum
}

/// A check sum, going on with each entry of a row.
fn mix(sum: u64, t: &Tri, a: usize) -> u64
    requires { a < t.now.cells }
    ensures { result ≡ fold mixed sum (row t.now.cells (entry t.now) a) }
{
    let mut sum = sum;
    for b in a..t.cells() {
        let e = t.get(a, b);
        sum = sum
            .wrapping_mul(31)
            .wrapping_add(e.lo())
            .wrapping_add(e.hi());
    }
    sum
}
