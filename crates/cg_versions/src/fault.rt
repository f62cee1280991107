ghost use Rattle.std.specs.Prelude.{◌≡◌};

use std::alloc::AllocError;

/// Why a version isn't given.
#[derive(Clone, Copy, Debug, PartialEq, Eq)]
pub enum TakeFault {
    /// The number isn't below the number of versions, which is this.
    NoVersion(u32),
    /// There was no memory for it.
    NoMemory,
}

impl From<AllocError> for TakeFault {
    ghost use Rattle.cg_versions.specs.declared.fault.TakeFault.TheVariants.{NoMemory};

    ghost from_gives = { λ _ e. e ≡ NoMemory };

    fn from(_refused: AllocError) -> TakeFault {
        TakeFault::NoMemory
    }
}

/// Why a head isn't set.
#[derive(Clone, Copy, Debug, PartialEq, Eq)]
pub enum CommitFault {
    /// No head has the name.
    NoModel,
    /// The head isn't the base, but this version.
    Moved(u32),
}
