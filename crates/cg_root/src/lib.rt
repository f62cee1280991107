//! Square roots of whole numbers below 2^126, exact by squares. Nothing here takes memory.
#![tactic(auto)]

ghost use Rattle.std.specs.Prelude.{◌≡◌, ◌+◌, ◌*◌, ◌^◌, ◌<◌, ◌≤◌};
ghost use Rattle.cg_root.specs.Root.{IsRootBelow, IsRootAbove};

/// The greatest number whose square isn't above `n`. Exact. Takes no memory.
pub fn root_down(n: u128) -> u64
    requires { n < 2 ^ 126 }
    ensures { IsRootBelow n result }
{
    let mut root: u64 = 0;
    for done in 0..63u32 {
        root = with_digit(n, root, 1 << (62 - done));
    }
    root
}

/// The least number whose square isn't below `n`. Exact. Takes no memory.
pub fn root_up(n: u128) -> u64
    requires { n < 2 ^ 126 }
    ensures { IsRootAbove n result }
{
    let below = root_down(n);
    let is_square = below as u128 * below as u128 == n;
    if is_square { below } else { below + 1 }
}

// The root with one binary digit more: `bit` is added where the square stays within `n`.
#[inline]
fn with_digit(n: u128, root: u64, bit: u64) -> u64
    requires square { root * root ≤ n }
    requires above { n < (root + 2 * bit) * (root + 2 * bit) }
    requires fits { root + 2 * bit ≤ 2 ^ 63 }
    ensures square { result * result ≤ n }
    ensures above { n < (result + bit) * (result + bit) }
    ensures fits { result + bit ≤ 2 ^ 63 }
{
    let next = root + bit;
    let stays = next as u128 * next as u128 <= n;
    if stays { next } else { root }
}
