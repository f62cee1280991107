//! What enclosures lose and how far they reach, kept up to date entry by entry.
ghost use Rattle.std.specs.Prelude.{◌≡◌, ◌^◌, ◌≤◌, max};
ghost use Rattle.cg_enc.specs.Enclosure.{IsEnclosure, IsExponent};
ghost use Rattle.cg_table.specs.Losses.{loss_of, reach_of};

use cg_enc::Enc;

// The greater of `k` and the loss of `e`. It divides only where `e` loses more.
#[inline]
pub(crate) fn greater_loss(e: &Enc, k: u64) -> u64
    ensures value { result ≡ max k (loss_of e.now) }
    ensures valid { IsEnclosure e.now }
{
    let hi = e.hi() as u128;
    let apart = ((e.hi() - e.lo()) as u128) << 62;
    if apart <= k as u128 * hi {
        return k;
    }
    ((apart + (hi - 1)) / hi) as u64
}

// The greater of `m` and the reach of `e`, in units of 2^31.
#[inline]
pub(crate) fn greater_reach(e: &Enc, m: u32) -> u32
    requires { IsExponent (2 ^ 60) e.now.exp }
    ensures { result ≡ max m (reach_of e.now) }
{
    let far = e.exp().unsigned_abs();
    m.max(((far + 0x7fff_ffff) >> 31) as u32)
}
