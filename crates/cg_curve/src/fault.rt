ghost use Rattle.std.specs.Prelude.{◌≡◌};

use std::alloc::AllocFailed;
use thiserror::Error;

/// Why bytes are no curve file. Lines count from 1; the first line with a fault is told, and there the first of these.
#[derive(Clone, Copy, Debug, PartialEq, Eq, Error)]
pub enum CurveFault {
    /// The line doesn't begin with three decimals, or its cal BP isn't whole.
    #[error("line {0}: bad row")]
    BadRow(u32),
    /// The age isn't within -10,000 to 70,000 or the sigma not within 0 to 10,000.
    #[error("line {0}: out of range")]
    OutOfRange(u32),
    /// The year doesn't go on strictly in the order of the first two rows.
    #[error("line {0}: order")]
    Order(u32),
    /// The year is more than 1,000 years from the row before.
    #[error("line {0}: gap")]
    Gap(u32),
    /// There are 20,000 rows already.
    #[error("line {0}: too many")]
    TooMany(u32),
    /// There are fewer than 2 rows.
    #[error("too few")]
    TooFew,
    /// There was no memory for the rows.
    #[error("out of memory")]
    NoMemory,
}

impl<T: Drop> From<AllocFailed<T>> for CurveFault {
    ghost use Rattle.cg_curve.specs.declared.fault.CurveFault.TheVariants.{NoMemory};

    ghost from_gives = { λ _ e. e ≡ NoMemory };

    fn from(_refused: AllocFailed<T>) -> CurveFault {
        CurveFault::NoMemory
    }
}
