//! The real files, by their paths.

use std::io::Read;
use std::rt::Files;
use std::{fs, io};

/// Opens files by their paths.
pub trait Open {
    ghost use Rattle.std.specs.Prelude.{◌≡◌, ℕ, List, Option, Some, IfOk, IfSome};

    type File: Read + Drop;

    /// The bytes of the file of each path, where they are told.
    ghost told: { Self → List ℕ → Option (List ℕ) };

    /// The file of this very path, at its front.
    fn open(&self, path: &str) -> io::Result<Self::File>
        ensures { IfOk result (λ file. IfSome (told self.now path.now)
            (λ bytes. Self.File.remaining file ≡ Some bytes)) };
}

/// The real files. It tells nothing of what they hold.
#[derive(Drop)]
pub struct Disk<'a, R: Files> {
    rt: &'a R,
}

impl<'a, R: Files> Disk<'a, R> {
    /// The files that a runtime opens.
    pub(crate) fn new(rt: &'a R) -> Disk<'a, R> {
        Disk { rt }
    }
}

impl<R: Files> Open for Disk<'_, R> {
    ghost use Rattle.std.specs.Prelude.{None};

    type File = R::File;

    ghost told = { λ _ _. None };

    fn open(&self, path: &str) -> io::Result<R::File> {
        fs::open(self.rt, path)
    }
}
