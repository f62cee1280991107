//! Tables of groups that bound events on one side only.
ghost use Rattle.std.specs.Prelude.{◌≡◌, ◌+◌, ◌++◌, ◌^◌, ◌<◌, ◌≤◌, ℕ, IfOk, OnOk};
ghost use Rattle.cg_enc.specs.Enclosure.{exact_zero};
ghost use Rattle.cg_table.specs.Exact.{exact_after, exact_before};
ghost use Rattle.cg_table.specs.Formulas.{after_entry, after_of, before_entry, before_of};
ghost use Rattle.cg_table.specs.Live.{live_rows};
ghost use Rattle.cg_table.specs.Table.{IsTable, EnclosesTable, entry, row, table_loss, table_reach};

use crate::single::summed;
use crate::tri::Tri;
use cg_enc::Enc;
use cg_num::NoMemory;

/// The table of an After group, by that of a Phase of its members: nothing before it bounds it.
pub fn after_group(t: &Tri) -> Result<Tri, NoMemory>
    requires { table_reach t.now < 2 ^ 20 }
    ensures value { IfOk result (λ r. r ≡ after_of t.now) }
    ensures encloses { (x : ℕ → ℕ → ℕ) (d : ℕ) → 0 < d → EnclosesTable t.now x d →
        IfOk result (λ r. EnclosesTable r (exact_after x) d) }
    ensures loss { t.now.cells ≤ 512 → IfOk result (λ r. table_loss r ≤ table_loss t.now + 2 ^ 13) }
    ensures reach { t.now.cells ≤ 512 → IfOk result (λ r. table_reach r ≤ table_reach t.now + 1) }
{
    filled_after(t)
}

fn filled_after(t: &Tri) -> Result<Tri, NoMemory>
    requires { table_reach t.now < 2 ^ 20 }
    ensures value { IfOk result (λ r. r ≡ after_of t.now) }
    ensures operand { IsTable t.now }
{
    let (cells, rows) = (t.cells(), rows_after(t));
    let mut entries = Vec::new(t.allocator());
    for a in 0..rows {
        push_after(&mut entries, t, a)?;
    }
    Ok(Tri::of_rows(cells, rows, entries))
}

// How many rows of an After group's table are walked: all, or none where each entry of `t` is zero.
fn rows_after(t: &Tri) -> usize
    ensures none { live_rows t.now ≡ 0 → result ≡ 0 }
    ensures within { result ≤ t.now.cells }
    ensures dead { (a b : ℕ) → result ≤ a → a ≤ b → b < t.now.cells →
        after_entry (entry t.now) a b ≡ exact_zero }
{
    if t.live() == 0 {
        return 0;
    }
    t.cells()
}

fn push_after(entries: &mut Vec<Enc>, t: &Tri, a: usize) -> Result<(), NoMemory>
    requires row { a < t.now.cells }
    requires reach { table_reach t.now < 2 ^ 20 }
    ensures { OnOk result (entries.new.items ≡ entries.old.items
        ++ row t.now.cells (after_entry (entry t.now)) a) }
{
    for b in a..t.cells() {
        entries.push(after_at(t, a, b))?;
    }
    Ok(())
}

// On the diagonal all that ends at `a` at the latest.
fn after_at(t: &Tri, a: usize, b: usize) -> Enc
    requires order { a ≤ b }
    requires within { b < t.now.cells }
    requires reach { table_reach t.now < 2 ^ 20 }
    ensures { result ≡ after_entry (entry t.now) a b }
{
    let reaching = t.get(0, b);
    if a == b {
        return summed(t, 0, 0, a + 1);
    }
    reaching
}

/// The table of a Before group, by that of a Phase of its members: it bounds nothing behind it.
pub fn before_group(t: &Tri) -> Result<Tri, NoMemory>
    requires { table_reach t.now < 2 ^ 20 }
    ensures value { IfOk result (λ r. r ≡ before_of t.now) }
    ensures encloses { (x : ℕ → ℕ → ℕ) (d : ℕ) → 0 < d → EnclosesTable t.now x d →
        IfOk result (λ r. EnclosesTable r (exact_before t.now.cells x) d) }
    ensures loss { t.now.cells ≤ 512 → IfOk result (λ r. table_loss r ≤ table_loss t.now + 2 ^ 13) }
    ensures reach { t.now.cells ≤ 512 → IfOk result (λ r. table_reach r ≤ table_reach t.now + 1) }
{
    filled_before(t)
}

fn filled_before(t: &Tri) -> Result<Tri, NoMemory>
    requires { table_reach t.now < 2 ^ 20 }
    ensures value { IfOk result (λ r. r ≡ before_of t.now) }
    ensures operand { IsTable t.now }
{
    let (cells, live) = (t.cells(), t.live());
    let mut entries = Vec::new(t.allocator());
    for a in 0..live {
        push_before(&mut entries, t, a)?;
    }
    Ok(Tri::of_rows(cells, live, entries))
}

fn push_before(entries: &mut Vec<Enc>, t: &Tri, a: usize) -> Result<(), NoMemory>
    requires row { a < t.now.cells }
    requires reach { table_reach t.now < 2 ^ 20 }
    ensures { OnOk result (entries.new.items ≡ entries.old.items
        ++ row t.now.cells (before_entry t.now.cells (entry t.now)) a) }
{
    for b in a..t.cells() {
        entries.push(before_at(t, a, b))?;
    }
    Ok(())
}

// On the diagonal all that begins at `a`.
fn before_at(t: &Tri, a: usize, b: usize) -> Enc
    requires order { a ≤ b }
    requires within { b < t.now.cells }
    requires reach { table_reach t.now < 2 ^ 20 }
    ensures { result ≡ before_entry t.now.cells (entry t.now) a b }
{
    if a == b {
        return summed(t, a, a, t.cells());
    }
    Enc::zero()
}
