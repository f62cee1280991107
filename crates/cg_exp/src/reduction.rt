//! The reduction of z to an argument at which the series is short.
ghost use Rattle.std.specs.Prelude.{◌≡◌, ◌+◌, ◌*◌, ◌^◌, ◌<◌, ◌≤◌, nat_eq, if◌then◌else◌};
ghost use Rattle.cg_exp.specs.Exponential.{halvings, reduced_below, reduced_above};

/// The reduced argument y in units of 2^-62, rounded down and up.
#[derive(Clone, Copy)]
pub(crate) struct Reduced {
    pub below: u64,
    pub above: u64,
}

// A quotient by long division, as far as it is found.
#[derive(Clone, Copy)]
struct Division {
    quotient: u64,
    rest: u128,
}

/// How often z = `p`/`q` is halved until it is a quarter at most.
pub(crate) fn halvings(p: u128, q: u128) -> u32
    requires fits { q < 2 ^ 96 }
    requires reach { p ≤ q * 2 ^ 28 }
    ensures value { result ≡ halvings p q }
    ensures few { result ≤ 30 }
    ensures small { 4 * p ≤ q * 2 ^ result }
{
    for h in 0..30u32 {
        let small = 4 * p <= q << h;
        if small {
            return h;
        }
    }
    30
}

/// y = `p`/(`q`·2^`h`): nothing but the last unit is rounded.
///
/// `p`·2^62 may pass 128 bits, so the quotient is found in three parts: the whole one, 32 binary places, and the others.
pub(crate) fn reduce(p: u128, q: u128, h: u32) -> Reduced
    requires some { 1 ≤ q }
    requires fits { q < 2 ^ 96 }
    requires few { h ≤ 30 }
    requires small { 4 * p ≤ q * 2 ^ h }
    ensures below { result.below ≡ reduced_below p q h }
    ensures above { result.above ≡ reduced_above p q h }
    ensures ordered { result.below ≤ result.above }
    ensures quarter { result.above ≤ 2 ^ 60 }
{
    let whole = Division {
        quotient: (p / q) as u64,
        rest: p % q,
    };
    let end = with_places(with_places(whole, q, 32), q, 30 - h);
    Reduced {
        below: end.quotient,
        above: rounded_up(end),
    }
}

// The quotient, rounded up where there is a rest.
#[inline]
fn rounded_up(found: Division) -> u64
    requires { found.quotient ≤ 2 ^ 60 }
    ensures { result ≡ if nat_eq found.rest 0 then found.quotient else found.quotient + 1 }
{
    if found.rest == 0 {
        return found.quotient;
    }
    found.quotient + 1
}

// The division with so many more binary places of the quotient.
#[inline]
fn with_places(found: Division, q: u128, places: u32) -> Division
    requires rest { found.rest < q }
    requires fits { q < 2 ^ 96 }
    requires few { places ≤ 32 }
    requires room { (found.quotient + 1) * 2 ^ places ≤ 2 ^ 64 }
    ensures value { result.quotient * q + result.rest ≡
        (found.quotient * q + found.rest) * 2 ^ places }
    ensures rest { result.rest < q }
{
    let wide = found.rest << places;
    Division {
        quotient: (found.quotient << places) + (wide / q) as u64,
        rest: wide % q,
    }
}
