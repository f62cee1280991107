ghost use Rattle.std.specs.Prelude.{◌≡◌};

use cg_num::NoMemory;
use cg_report::{FileCause, FileRef};
use std::alloc::AllocFailed;

/// Why not all files were accepted.
#[derive(Drop)]
pub enum FileFault {
    /// The read of this file failed.
    Failed(FileRef),
    /// This file is refused at a line, 0 for the file as a whole.
    Refused(FileRef, u32, FileCause),
    NoMemory,
}

impl From<NoMemory> for FileFault {
    ghost use Rattle.cg_files.specs.declared.file.FileFault.TheVariants.{NoMemory};

    ghost from_gives = { λ _ e. e ≡ NoMemory };

    fn from(_refused: NoMemory) -> FileFault {
        FileFault::NoMemory
    }
}

impl<T: Drop> From<AllocFailed<T>> for FileFault {
    ghost use Rattle.cg_files.specs.declared.file.FileFault.TheVariants.{NoMemory};

    ghost from_gives = { λ _ e. e ≡ NoMemory };

    fn from(_refused: AllocFailed<T>) -> FileFault {
        FileFault::NoMemory
    }
}
