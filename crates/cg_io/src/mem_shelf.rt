//! A shelf in memory.

ghost use Rattle.std.specs.Prelude.{◌≡◌, OnOk, OnErr, IsOkUnless};

use crate::calls::Calls;
use crate::shelf::{ReadEnd, Shelf, ShelfFault, faults_after};
use std::alloc::Global;
use std::collections::BTreeMap;
use std::marker::Model;

/// Files in memory, which tells them. Reads are counted from 1, and some may be told to fail.
#[derive(Drop)]
pub struct MemShelf {
    alloc: Global,
    files: BTreeMap<String, Vec<u8>>,
    calls: Calls,
    faults: u64,
}

impl Model for MemShelf {
    ghost use Rattle.cg_io.specs.MemShelf.{ShelfState, files_in, state_code};

    ghost Value = { ShelfState };

    ghost coded = { state_code };

    ghost view = { λ s. record { files = files_in s.files; calls = s.calls; faults = s.faults } };
}

impl MemShelf {
    ghost use Rattle.cg_io.specs.Shelf.{Appends, Answers};
    ghost use Rattle.cg_io.specs.MemShelf.{empty_shelf, with_file, told_files};
    ghost use Rattle.cg_io.specs.Calls.{with_failing, after_call};

    /// A shelf with no file.
    pub fn new(alloc: Global) -> MemShelf
        ensures { result ≡ empty_shelf }
    {
        MemShelf {
            alloc,
            files: BTreeMap::new(alloc),
            calls: Calls::new(alloc),
            faults: 0,
        }
    }

    /// Puts a file onto the shelf, in the place of one that has this name.
    pub fn put(&mut self, name: &str, bytes: &[u8]) -> Result<(), ShelfFault>
        ensures ok { OnOk result (self.new ≡ with_file self.old name.now bytes.now) }
        ensures err { OnErr result (self.new ≡ self.old) }
        ensures only_memory { IsOkUnless result ShelfFault.NoMemory }
    {
        let name = String::from_str(self.alloc, name)?;
        let bytes = Vec::from_slice(self.alloc, bytes)?;
        self.files.insert(name, bytes)?;
        Ok(())
    }

    /// The read of this number is to fail.
    pub fn fail_on(&mut self, call: u64) -> Result<(), ShelfFault>
        ensures ok { OnOk result (self.new ≡
            record self.old { calls = with_failing self.old.calls call }) }
        ensures err { OnErr result (self.new ≡ self.old) }
        ensures only_memory { IsOkUnless result ShelfFault.NoMemory }
    {
        self.calls.fail_on(call)?;
        Ok(())
    }

    /// Counts a read and answers it, and leaves its fault to be counted.
    fn answer(
        &mut self,
        name: &str,
        into: &mut Vec<u8>,
        limit: usize,
    ) -> Result<ReadEnd, ShelfFault>
        ensures appends { Appends limit into.old.items into.new.items result }
        ensures answers { Answers (told_files self.old) name.now limit
            into.old.items into.new.items result }
        ensures after { self.new ≡ record self.old { calls = after_call self.old.calls } }
    {
        if self.calls.count() {
            return Err(ShelfFault::Failed);
        }
        let Some(bytes) = self.files.get(name) else {
            return Err(ShelfFault::Failed);
        };
        if bytes.len() > limit {
            return Ok(ReadEnd::TooLong);
        }
        into.extend_from_slice(bytes)?;
        Ok(ReadEnd::Whole)
    }
}

impl Shelf for MemShelf {
    ghost use Rattle.std.specs.Prelude.{◌≡◌, ◌≤◌, Some};
    ghost use Rattle.cg_io.specs.Shelf.{Appends, Answers};
    ghost use Rattle.cg_io.specs.MemShelf.{told_files, after_answer};

    ghost told = { λ s. Some (told_files s) };

    ghost faults = { λ s. s.faults };

    fn faults(&self) -> u64 {
        self.faults
    }

    fn read(&mut self, name: &str, into: &mut Vec<u8>, limit: usize) -> Result<ReadEnd, ShelfFault>
        ensures appends { Appends limit into.old.items into.new.items result }
        ensures answers { Answers (told_files self.old) name.now limit
            into.old.items into.new.items result }
        ensures later { self.old.faults ≤ self.new.faults }
        ensures after { self.new ≡ after_answer self.old result }
    {
        let answer = self.answer(name, into, limit);
        self.faults = faults_after(self.faults, answer);
        answer
    }
}
