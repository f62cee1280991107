use cg_curve::CurveFault;
use cg_grammar::CqlCause;
use cg_script::ScriptCause;

/// What a file is read for.
#[derive(Clone, Copy, Debug, PartialEq, Eq)]
pub enum FileKind {
    Curve,
    Model,
    Session,
}

/// A file by its kind and its number in the list of that kind, from 1.
#[derive(Clone, Copy, Debug, PartialEq, Eq)]
pub struct FileRef {
    pub kind: FileKind,
    pub number: u32,
}

/// Why a file is refused. No fault in it is want of memory.
#[derive(Drop)]
pub enum FileCause {
    /// It has more than 4,194,304 bytes.
    TooLong,
    /// It is a model that names a curve which isn't given.
    UnknownCurve,
    /// It is no curve file.
    Curve(CurveFault),
    /// It is no model file.
    Cql(CqlCause),
    /// It is no session script.
    Script(ScriptCause),
}
