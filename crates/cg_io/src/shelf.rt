//! Where files are read from.

ghost use Rattle.std.specs.Prelude.{◌≡◌, ◌≤◌, ℕ, Option};
ghost use Rattle.cg_io.specs.Causes.{Rose};
ghost use Rattle.cg_io.specs.Shelf.{faults_counted};
ghost use Rattle.cg_io.specs.declared.shelf.ShelfFault.TheVariants.{Failed, NoMemory};

use std::alloc::{AllocError, AllocFailed};
use std::io;

/// How a read ended that met no fault.
#[derive(Clone, Copy, Debug, PartialEq, Eq)]
pub enum ReadEnd {
    /// All of the file's bytes were appended.
    Whole,
    /// The file has more bytes than the limit, and none was appended.
    TooLong,
}

/// Why a file could not be read.
#[derive(Clone, Copy, Debug, PartialEq, Eq)]
pub enum ShelfFault {
    /// There is no such file, or reading it failed.
    Failed,
    /// There was no memory for its bytes.
    NoMemory,
}

impl From<AllocError> for ShelfFault {
    ghost from_gives = { λ _ e. e ≡ NoMemory };

    fn from(_error: AllocError) -> ShelfFault {
        ShelfFault::NoMemory
    }
}

impl<T: Drop> From<AllocFailed<T>> for ShelfFault {
    ghost from_gives = { λ _ e. e ≡ NoMemory };

    fn from(_error: AllocFailed<T>) -> ShelfFault {
        ShelfFault::NoMemory
    }
}

impl From<io::Error> for ShelfFault {
    ghost from_gives = { λ _ e. e ≡ Failed };

    fn from(_error: io::Error) -> ShelfFault {
        ShelfFault::Failed
    }
}

/// The count of faults after a read that answered so: one more where it failed.
pub(crate) fn faults_after(faults: u64, answer: Result<ReadEnd, ShelfFault>) -> u64
    ensures counted { result ≡ faults_counted faults answer }
    ensures later { faults ≤ result }
{
    match answer {
        Err(ShelfFault::Failed) => faults.saturating_add(1),
        _ => faults,
    }
}

/// Files that are read by their names.
pub trait Shelf {
    ghost use Rattle.cg_io.specs.Shelf.{Files, TellsRead, Appends};

    /// The files and the reads so far, where the shelf tells them.
    ghost told: { Self → Option Files };

    /// How many reads have failed. The count stays at the end of `u64`.
    ghost faults: { Self → ℕ };

    /// How many reads have failed.
    fn faults(&self) -> u64
        ensures { result ≡ faults self.now };

    /// Appends the bytes of a file to `into`, where these are at most `limit` bytes.
    ///
    /// `Failed` comes only where the count of faults rose in this call. After a fault and after
    /// `TooLong`, `into` is as it was.
    fn read(&mut self, name: &str, into: &mut Vec<u8>, limit: usize) -> Result<ReadEnd, ShelfFault>
        ensures appends { Appends limit into.old.items into.new.items result }
        ensures later { faults self.old ≤ faults self.new }
        ensures cause { result ≡ Err ShelfFault.Failed → Rose (faults self.old) (faults self.new) }
        ensures told { TellsRead (told self.old) (told self.new) name.now limit
            into.old.items into.new.items result };
}
