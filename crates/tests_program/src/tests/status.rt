//! Lines of statuses and exit codes.
use super::line_of;
use cg_curve::CurveFault;
use cg_grammar::{CqlCause, CqlLimit};
use cg_report::{FileCause, FileKind, FileRef, Status};
use cg_script::{ScriptCause, ScriptLimit};
use std::test::Fail;

fn refused(kind: FileKind, line: u32, cause: FileCause) -> Status {
    Status::Refused(FileRef { kind, number: 8 }, line, cause)
}

/// The line and the exit code of a status.
fn is_told(rt: &HostRuntime, status: &Status, line: &str, code: u8) -> Result<bool, Fail> {
    Ok(line_of(rt.alloc(), status)?.as_str() == line && status.code() == code)
}

#[test]
fn statuses(rt: HostRuntime) -> Result<(), Fail> {
    let session = FileRef {
        kind: FileKind::Session,
        number: 8,
    };
    assert!(rt; is_told(&rt, &Status::Done, "", 0)?);
    assert!(rt; is_told(&rt, &Status::Usage, "usage\n", 2)?);
    assert!(rt;
        is_told(
            &rt,
            &Status::ReadFault(session),
            "read fault: session 8\n",
            3
        )?
    );
    assert!(rt; is_told(&rt, &Status::WriteFault, "write fault\n", 5)?);
    assert!(rt; is_told(&rt, &Status::NoMemory, "out of memory\n", 6)?);
    Ok(())
}

#[test]
fn causes(rt: HostRuntime) -> Result<(), Fail> {
    let long = refused(FileKind::Model, 0, FileCause::TooLong);
    assert!(rt; is_told(&rt, &long, "model 8 line 0: too long\n", 4)?);
    let row = FileCause::Curve(CurveFault::BadRow(12));
    let row = refused(FileKind::Curve, 12, row);
    assert!(rt; is_told(&rt, &row, "curve 8 line 12: bad row\n", 4)?);
    let depth = FileCause::Cql(CqlCause::Limit(CqlLimit::Depth));
    let depth = refused(FileKind::Model, 3, depth);
    assert!(rt; is_told(&rt, &depth, "model 8 line 3: limit depth\n", 4)?);
    let prints = FileCause::Script(ScriptCause::Limit(ScriptLimit::Prints));
    let prints = refused(FileKind::Session, 201, prints);
    assert!(rt; is_told(&rt, &prints, "session 8 line 201: limit prints\n", 4)?);
    Ok(())
}
