//! Proved bounds of e^-z.
//!
//! z is halved h times, until y = z/2^h is a quarter at most. There two neighbouring sums of Taylor's series, rounded away
//! from each other in units of 2^-62, enclose e^-y, and the enclosure is multiplied by itself h times over. Nothing here
//! takes memory.
//!
//! What is enclosed is said of the sums alone, which are fractions. That e^-z itself lies between them is known from
//! analysis, and isn't proved here.
#![tactic(auto)]

ghost use Rattle.std.specs.Prelude.{◌≡◌, ◌+◌, ◌-◌, ◌*◌, ◌^◌, ◌<◌, ◌≤◌, ℕ};
ghost use Rattle.cg_enc.specs.Enclosure.{Encloses, HasLoss, IsEnclosure, IsExponent, IsFirm};
ghost use Rattle.cg_exp.specs.Exponential.{exp_neg_of, halvings};
ghost use Rattle.cg_meaning.specs.Taylor.{IsHalving, bound_top, bound_bottom};

mod power;
mod reduction;
mod series;

use cg_enc::Enc;

/// Bounds of e^-z for z = `p`/`q`: the lower end rounded down, the upper end rounded up. Takes no memory.
///
/// Below stands the sum of Taylor's series at y = z/2^h up to the power 17, above the one up to the power 16, each raised
/// to the power 2^h, for the least h with y at most a quarter. All between them is enclosed.
pub fn exp_neg(p: u128, q: u128) -> Enc
    requires some { 1 ≤ q }
    requires fits { q < 2 ^ 96 }
    requires reach { p ≤ q * 2 ^ 28 }
    ensures value { result ≡ exp_neg_of p q }
    ensures valid { IsEnclosure result }
    ensures lower { (h : ℕ) → IsHalving p q h →
        Encloses result (bound_top p q h 17) (bound_bottom q h 17) }
    ensures upper { (h : ℕ) → IsHalving p q h →
        Encloses result (bound_top p q h 16) (bound_bottom q h 16) }
    ensures between { (h n d : ℕ) → IsHalving p q h →
        bound_top p q h 17 * d ≤ n * bound_bottom q h 17 →
        n * bound_bottom q h 16 ≤ bound_top p q h 16 * d → Encloses result n d }

    // So there is something between the bounds, and all of it is above 0.
    ensures some_bound { (h : ℕ) → IsHalving p q h → 0 < bound_top p q h 17 }
    ensures ordered { (h : ℕ) → IsHalving p q h →
        bound_top p q h 17 * bound_bottom q h 16 ≤ bound_top p q h 16 * bound_bottom q h 17 }
    ensures halving { IsHalving p q (halvings p q) }
    ensures few { (h : ℕ) → IsHalving p q h → h ≤ 30 }
    ensures loss { (h : ℕ) → IsHalving p q h → HasLoss result (9 * 2 ^ h) }
    ensures most_loss { HasLoss result (2 ^ 34 - 1) }
    ensures exponent { IsExponent (2 ^ 31) result.exp }
    ensures positive { 0 < result.hi }
    ensures firm { IsFirm result }
{
    recipe(p, q)
}

fn recipe(p: u128, q: u128) -> Enc
    requires some { 1 ≤ q }
    requires fits { q < 2 ^ 96 }
    requires reach { p ≤ q * 2 ^ 28 }
    ensures { result ≡ exp_neg_of p q }
{
    let h = reduction::halvings(p, q);
    let y = reduction::reduce(p, q, h);
    let below = series::series(y, 17);
    let above = series::series(y, 16);
    power::squared(Enc::of_bounds(below, above, -62), h)
}
