//! Shelves: in memory, over real files, and over files whose reads fail.

use cg_io::{FileShelf, MemShelf, Open, ReadEnd, Shelf, ShelfFault};
use std::alloc::{AllocError, Global};
use std::cell::Cell;
use std::io::Read;
use std::rt::Files;
use std::test::Fail;
use std::{fs, io};

// The name, the limit, the answer, the buffer afterwards and the faults so far.
static IN_MEMORY: [(&str, usize, Result<ReadEnd, ShelfFault>, &str, u64); 7] = [
    ("three", 3, Ok(ReadEnd::Whole), "-abc", 0),
    ("three", 2, Ok(ReadEnd::TooLong), "-", 0),
    ("other", 9, Err(ShelfFault::Failed), "-", 1),
    ("three", 9, Err(ShelfFault::Failed), "-", 2),
    ("three", 9, Ok(ReadEnd::Whole), "-abc", 2),
    ("empty", 0, Ok(ReadEnd::Whole), "-", 2),
    ("THREE", 9, Err(ShelfFault::Failed), "-", 3),
];

fn filled(alloc: Global) -> Result<MemShelf, Fail> {
    let mut shelf = MemShelf::new(alloc);
    shelf.put("three", b"xyz!")?;
    shelf.put("three", b"abc")?;
    shelf.put("empty", b"")?;
    shelf.fail_on(4)?;
    Ok(shelf)
}

#[test]
fn reads_in_memory(rt: HostRuntime) -> Result<(), Fail> {
    let mut shelf = filled(rt.alloc())?;
    for (name, limit, answer, buffer, faults) in &IN_MEMORY {
        let mut into = Vec::from_slice(rt.alloc(), b"-")?;
        assert!(rt; shelf.read(name, &mut into, *limit) == *answer, "{name}");
        assert!(rt; into.as_slice() == buffer.as_bytes(), "{name}");
        assert!(rt; shelf.faults() == *faults, "{name}");
    }
    Ok(())
}

// The path, the limit, the answer, how many bytes were appended and the faults so far.
static FROM_DISK: [(&str, usize, Result<ReadEnd, ShelfFault>, usize, u64); 10] = [
    ("ends/six", 6, Ok(ReadEnd::Whole), 6, 0),
    ("ends/six", 5, Ok(ReadEnd::TooLong), 0, 0),
    ("ends/long", 5_000, Ok(ReadEnd::Whole), 5_000, 0),
    ("ends/long", 4_999, Ok(ReadEnd::TooLong), 0, 0),
    ("ends/absent", 9, Err(ShelfFault::Failed), 0, 1),
    ("ends", 9, Err(ShelfFault::Failed), 0, 2),
    ("ends/six", usize::MAX, Ok(ReadEnd::Whole), 6, 2),
    ("ends/longer", 70_001, Ok(ReadEnd::Whole), 70_001, 2),
    ("ends/longer", 70_000, Ok(ReadEnd::TooLong), 0, 2),
    ("ends/longer", 4_194_304, Ok(ReadEnd::Whole), 70_001, 2),
];

fn fill_ends<R: Files>(rt: &R, alloc: Global) -> Result<(), Fail> {
    fs::create_dir_all(rt, "ends")?;
    fs::write(rt, "ends/six", b"three\n")?;
    fs::write(rt, "ends/long", &[b'x'; 5_000])?;
    fs::write(rt, "ends/longer", many_bytes(alloc)?.as_slice())?;
    Ok(())
}

/// 70,001 bytes, more than 64 KiB, whose blocks of 4,096 bytes differ.
fn many_bytes(alloc: Global) -> Result<Vec<u8>, AllocError> {
    let mut bytes = Vec::new(alloc);
    for number in 0..70_001u32 {
        bytes.push((number % 251) as u8)?;
    }
    Ok(bytes)
}

#[test]
fn reads_files(rt: HostRuntime) -> Result<(), Fail> {
    fill_ends(&rt, rt.alloc())?;
    let mut shelf = FileShelf::new(&rt);
    for (path, limit, answer, appended, faults) in &FROM_DISK {
        let mut into = Vec::from_slice(rt.alloc(), b"-")?;
        assert!(rt; shelf.read(path, &mut into, *limit) == *answer, "{path}");
        assert!(rt; into.len() == *appended + 1, "{path}");
        assert!(rt; shelf.faults() == *faults, "{path}");
    }
    fs::remove_dir_all(&rt, "ends")?;
    Ok(())
}

// The path and the bytes of the file. No two paths differ but in blanks.
static BLANKS: [(&str, &str); 5] = [
    ("blanks/ab", "three\n"),
    ("blanks/a b", "inside"),
    ("blanks/ab ", "at the end"),
    ("blanks/ ab", "at the front"),
    (" blanks", "in front of the path"),
];

fn fill_blanks<R: Files>(rt: &R) -> Result<(), Fail> {
    fs::create_dir_all(rt, "blanks")?;
    for (path, bytes) in &BLANKS {
        fs::write(rt, *path, *bytes)?;
    }
    Ok(())
}

#[test]
fn reads_the_file_of_the_very_path(rt: HostRuntime) -> Result<(), Fail> {
    fill_blanks(&rt)?;
    let mut shelf = FileShelf::new(&rt);
    for (path, bytes) in &BLANKS {
        let mut into = Vec::new(rt.alloc());
        assert!(rt;
            shelf.read(path, &mut into, 20) == Ok(ReadEnd::Whole),
            "of '{path}'"
        );
        assert!(rt; into.as_slice() == bytes.as_bytes(), "of '{path}'");
    }
    let mut into = Vec::new(rt.alloc());
    assert!(rt; shelf.read("blanks/ab  ", &mut into, 20) == Err(ShelfFault::Failed));
    fs::remove_file(&rt, " blanks")?;
    fs::remove_dir_all(&rt, "blanks")?;
    Ok(())
}

#[test]
fn reads_each_byte(rt: HostRuntime) -> Result<(), Fail> {
    let bytes = many_bytes(rt.alloc())?;
    fs::write(&rt, "many", bytes.as_slice())?;
    let mut shelf = FileShelf::new(&rt);
    let mut into = Vec::new(rt.alloc());
    assert!(rt; shelf.read("many", &mut into, 70_001) == Ok(ReadEnd::Whole));
    assert!(rt; into.as_slice() == bytes.as_slice());
    fs::remove_file(&rt, "many")?;
    Ok(())
}

/// Opens a file that gives two bytes a turn for a number of turns, and then fails.
#[derive(Drop)]
struct Broken<'a> {
    turns: &'a Cell<u8>,
}

impl<'a> Open for Broken<'a> {
    ghost use Rattle.std.specs.Prelude.{None};

    type File = BrokenFile<'a>;

    ghost told = { λ _ _. None };

    fn open(&self, _path: &str) -> io::Result<BrokenFile<'a>> {
        Ok(BrokenFile { turns: self.turns })
    }
}

#[derive(Drop)]
struct BrokenFile<'a> {
    turns: &'a Cell<u8>,
}

impl Read for BrokenFile<'_> {
    fn read(&mut self, buf: &mut [u8]) -> io::Result<usize> {
        let Some(left) = self.turns.get().checked_sub(1) else {
            return Err(io::Error::from(io::ErrorKind::ConnectionReset));
        };
        self.turns.set(left);
        let given = buf.len().min(2);
        buf[..given].fill(b'x');
        Ok(given)
    }
}

// The limit, the answer and the turns that the file has left: it would fail at its fourth.
static BROKEN: [(usize, Result<ReadEnd, ShelfFault>, u8); 3] = [
    (5, Ok(ReadEnd::TooLong), 0),
    (3, Ok(ReadEnd::TooLong), 1),
    (6, Err(ShelfFault::Failed), 0),
];

#[test]
fn keeps_nothing_of_a_broken_read(rt: HostRuntime) -> Result<(), Fail> {
    for (limit, answer, left) in &BROKEN {
        let turns = Cell::new(3);
        let mut shelf = FileShelf::over(Broken { turns: &turns });
        let mut into = Vec::from_slice(rt.alloc(), b"-")?;
        assert!(rt; shelf.read("", &mut into, *limit) == *answer, "at {limit}");
        assert!(rt; into.as_slice() == b"-".as_slice(), "at {limit}");
        assert!(rt; turns.get() == *left, "at {limit}");
    }
    Ok(())
}
