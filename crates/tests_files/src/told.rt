//! Files on a shelf, and what reading them comes to.
use crate::shown::words_of;
use cg_files::{FileFault, Inputs, read_all};
use cg_io::MemShelf;
use cg_report::{Status, status_line};
use cg_words::request_of;
use std::alloc::Global;
use std::test::Fail;

fn put_all(shelf: &mut MemShelf, files: &[(&str, &str)]) -> Result<(), Fail> {
    for (name, text) in files {
        shelf.put(name, text.as_bytes())?;
    }
    Ok(())
}

/// A shelf with these files by their names.
pub(crate) fn shelf_of(alloc: Global, files: &[(&str, &str)]) -> Result<MemShelf, Fail> {
    let mut shelf = MemShelf::new(alloc);
    put_all(&mut shelf, files)?;
    Ok(shelf)
}

fn read_words(
    alloc: Global,
    words: &[String],
    shelf: &mut MemShelf,
) -> Result<Result<Inputs, FileFault>, Fail> {
    match request_of(alloc, words)? {
        Some(request) => Ok(read_all(alloc, &request, shelf)),
        None => Err("no request".into()),
    }
}

/// Reads the files that a line of words names.
pub(crate) fn read(
    alloc: Global,
    line: &str,
    shelf: &mut MemShelf,
) -> Result<Result<Inputs, FileFault>, Fail> {
    let words = words_of(alloc, line)?;
    read_words(alloc, &words, shelf)
}

fn status_of(fault: FileFault) -> Status {
    match fault {
        FileFault::Failed(file) => Status::ReadFault(file),
        FileFault::Refused(file, line, cause) => Status::Refused(file, line, cause),
        FileFault::NoMemory => Status::NoMemory,
    }
}

fn line_of(alloc: Global, status: &Status) -> Result<String, Fail> {
    let mut line = Vec::new(alloc);
    status_line(alloc, status, &mut line)?;
    Ok(String::from_utf8(line)?)
}

/// The line of a status for the fault of the files that a line of words names, and nothing where all are accepted.
pub(crate) fn told(alloc: Global, line: &str, shelf: &mut MemShelf) -> Result<String, Fail> {
    let status = match read(alloc, line, shelf)? {
        Ok(_) => Status::Done,
        Err(fault) => status_of(fault),
    };
    line_of(alloc, &status)
}
