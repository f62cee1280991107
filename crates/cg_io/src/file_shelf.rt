//! A shelf of files that are opened by their paths, as real files are.

ghost use Rattle.std.specs.Prelude.{◌≡◌, ◌≤◌, ◌+◌, length};
ghost use Rattle.std.specs.Io.{StartsWith};
ghost use Rattle.cg_io.specs.FileShelf.{TakesAtMost, AppendsRest};
ghost use Rattle.cg_io.specs.Shelf.{Appends};

use crate::disk::{Disk, Open};
use crate::shelf::{ReadEnd, Shelf, ShelfFault, faults_after};
use std::io::Read;
use std::rt::Files;

/// How many bytes are read from a file at once.
const PART: usize = 4096;

/// Files by their paths. As a shelf it tells nothing of what they hold.
#[derive(Drop)]
pub struct FileShelf<O: Open + Drop> {
    files: O,
    faults: u64,
}

impl<'a, R: Files> FileShelf<Disk<'a, R>> {
    /// A shelf of the real files, whose reads have not failed yet. Takes no memory.
    pub fn new(rt: &'a R) -> FileShelf<Disk<'a, R>>
        ensures { result.faults ≡ 0 }
    {
        FileShelf::over(Disk::new(rt))
    }
}

impl<O: Open + Drop> FileShelf<O> {
    /// A shelf of the files that are opened so, whose reads have not failed yet. Takes no memory.
    pub fn over(files: O) -> FileShelf<O>
        ensures { result ≡ record { files = files; faults = 0 } }
    {
        FileShelf { files, faults: 0 }
    }
}

impl<O: Open + Drop> Shelf for FileShelf<O> {
    ghost use Rattle.std.specs.Prelude.{◌≡◌, ◌≤◌, None};
    ghost use Rattle.cg_io.specs.Causes.{Rose};
    ghost use Rattle.cg_io.specs.FileShelf.{AppendsRest};
    ghost use Rattle.cg_io.specs.Shelf.{Appends, faults_counted};

    ghost told = { λ _. None };

    ghost faults = { λ s. s.faults };

    fn faults(&self) -> u64 {
        self.faults
    }

    fn read(&mut self, name: &str, into: &mut Vec<u8>, limit: usize) -> Result<ReadEnd, ShelfFault>
        ensures appends { Appends limit into.old.items into.new.items result }
        ensures later { self.old.faults ≤ self.new.faults }
        ensures cause { result ≡ Err ShelfFault.Failed → Rose self.old.faults self.new.faults }
        ensures faults { self.new.faults ≡ faults_counted self.old.faults result }
        // Of files that are told, the answer is for this very name and limit.
        ensures rest { AppendsRest (O.told self.old.files name.now) limit
            into.old.items into.new.items result }
    {
        let answer = read_file(&self.files, name, into, limit);
        self.faults = faults_after(self.faults, answer);
        answer
    }
}

/// Appends the bytes of a file, where these are at most `limit` bytes.
fn read_file<O: Open>(
    files: &O,
    name: &str,
    into: &mut Vec<u8>,
    limit: usize,
) -> Result<ReadEnd, ShelfFault>
    ensures appends { Appends limit into.old.items into.new.items result }
    ensures rest { AppendsRest (O.told files.now name.now) limit into.old.items into.new.items result }
{
    let mut file = files.open(name)?;
    append_rest(&mut file, into, limit)
}

/// Appends what a reader has left, where that is at most `limit` bytes.
fn append_rest<F: Read>(
    file: &mut F,
    into: &mut Vec<u8>,
    limit: usize,
) -> Result<ReadEnd, ShelfFault>
    ensures appends { Appends limit into.old.items into.new.items result }
    ensures takes { TakesAtMost (limit + 1) (F.remaining file.old) (F.remaining file.new) }
    ensures rest { AppendsRest (F.remaining file.old) limit into.old.items into.new.items result }
{
    let before = into.len();
    match append_parts(file, into, limit) {
        Ok(ReadEnd::Whole) => Ok(ReadEnd::Whole),
        Ok(ReadEnd::TooLong) => {
            into.truncate(before);
            Ok(ReadEnd::TooLong)
        }
        Err(fault) => {
            into.truncate(before);
            Err(fault)
        }
    }
}

/// Appends what a reader has left up to its end, a fault, or its first byte past `limit`.
fn append_parts<F: Read>(
    file: &mut F,
    into: &mut Vec<u8>,
    limit: usize,
) -> Result<ReadEnd, ShelfFault>
    ensures kept { StartsWith into.new.items into.old.items }
    ensures within { length into.new.items ≤ length into.old.items + limit }
    ensures takes { TakesAtMost (limit + 1) (F.remaining file.old) (F.remaining file.new) }
    ensures rest { AppendsRest (F.remaining file.old) limit into.old.items into.new.items result }
{
    let mut part = [0; PART];
    let mut left = limit;
    loop {
        let wanted = left.min(PART - 1) + 1;
        let taken = file.read(&mut part[..wanted])?;
        if taken == 0 {
            return Ok(ReadEnd::Whole);
        }
        if taken > left {
            return Ok(ReadEnd::TooLong);
        }
        into.extend_from_slice(&part[..taken])?;
        left -= taken;
    }
}
