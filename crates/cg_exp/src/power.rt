//! Powers of enclosures by squaring.
ghost use Rattle.std.specs.Prelude.{◌≡◌, ◌≤◌};
ghost use Rattle.cg_enc.specs.Enclosure.{IsExponent};
ghost use Rattle.cg_exp.specs.Exponential.{squared};

use cg_enc::Enc;

/// Multiplied by itself, `h` times over.
pub(crate) fn squared(base: Enc, h: u32) -> Enc
    requires few { h ≤ 30 }
    requires reach { IsExponent 126 base.exp }
    ensures { result ≡ squared base h }
{
    let mut power = base;
    for _ in 0..h {
        power = power.times(&power);
    }
    power
}
