//! What reading comes to, as texts.
use cg_report::{FileCause, FileKind, FileRef, Status, status_line};
use cg_script::{Script, ScriptFault, read_script};
use std::alloc::Global;
use std::test::Fail;

const MAX_BYTES: usize = 100_000;

/// The script of a short text.
pub(crate) fn read(alloc: Global, bytes: &[u8]) -> Result<Result<Script, ScriptFault>, Fail> {
    if bytes.len() > MAX_BYTES {
        return Err("a long script".into());
    }
    Ok(read_script(alloc, bytes))
}

/// The line of a status for a fault.
fn line_of(alloc: Global, fault: ScriptFault) -> Result<String, Fail> {
    let file = FileRef {
        kind: FileKind::Session,
        number: 1,
    };
    let status = Status::Refused(file, fault.line, FileCause::Script(fault.cause));
    let mut line = Vec::new(alloc);
    status_line(alloc, &status, &mut line)?;
    Ok(String::from_utf8(line)?)
}

/// The line of a status for the fault of bytes that are no script, and the number of commands of a script.
pub(crate) fn told(alloc: Global, bytes: &[u8]) -> Result<String, Fail> {
    match read(alloc, bytes)? {
        Ok(script) => Ok(format!(in alloc; "{} commands\n", script.len())?),
        Err(fault) => line_of(alloc, fault),
    }
}
