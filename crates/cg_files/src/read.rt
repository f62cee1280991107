//! One file, by its kind.

ghost use Rattle.std.specs.Prelude.{◌≡◌, ◌-◌, ◌≤◌, ◌<◌, ◌^◌, ◌∷◌, ◌↔◌, [], List, IfOk, IfErr, IfSome, IfNone, IsTrue, Some, length};
ghost use Rattle.cg_meaning.specs.Tree.{Name};
ghost use Rattle.cg_grammar.specs.Text.{Spells};
ghost use Rattle.cg_files.specs.Shelf.{limit, Reads, Finds};
ghost use Rattle.cg_files.specs.Said.{fault_line, fault_of_curve, fault_of_model, fault_of_script, IsKnown, NamesUnknown, a_curve, a_model, a_script};
ghost use Rattle.cg_files.specs.Reading.{AreRead, EndsWith, HasRisen};
ghost use Rattle.cg_files.specs.Inputs.{file_as, names_of};

use crate::file::FileFault;
use cg_cql::{curve_line, read_model};
use cg_curve::{Curve, CurveFault, read_curve};
use cg_grammar::{CqlCause, CqlFault};
use cg_io::{ReadEnd, Shelf, ShelfFault};
use cg_model::{ModelTree, Name};
use cg_report::{FileCause, FileKind, FileRef};
use cg_script::{Script, ScriptCause, ScriptFault, read_script};
use cg_words::NamedFile;
use std::alloc::Global;

const LIMIT: usize = 4_194_304;

/// The bytes of a file, read once.
fn bytes_of<H: Shelf>(
    alloc: Global,
    file: FileRef,
    name: &str,
    shelf: &mut H,
) -> Result<Vec<u8>, FileFault>
    ensures found { IfOk result (λ bytes. Finds (H.told shelf.old) name.now bytes.items) }
    ensures short { IfOk result (λ bytes. length bytes.items ≤ limit) }
    ensures reads { Reads 1 (H.told shelf.old) (H.told shelf.new) }
    ensures fault { IfErr result (λ fault. (given : List Name)
        → EndsWith given (H.told shelf.old) (H.told shelf.new) (record { ref = file; name = name.now } ∷ []) fault) }
    ensures later { H.faults shelf.old ≤ H.faults shelf.new }
    ensures cause { IfErr result (λ fault. HasRisen fault (H.faults shelf.old) (H.faults shelf.new)) }
{
    let mut bytes = Vec::new(alloc);
    match shelf.read(name, &mut bytes, LIMIT) {
        Ok(ReadEnd::Whole) => Ok(bytes),
        Ok(ReadEnd::TooLong) => Err(FileFault::Refused(file, 0, FileCause::TooLong)),
        Err(ShelfFault::Failed) => Err(FileFault::Failed(file)),
        Err(ShelfFault::NoMemory) => Err(FileFault::NoMemory),
    }
}

/// The line of a curve's fault, 0 for the file as a whole.
fn fault_line(fault: CurveFault) -> u32
    ensures { result ≡ fault_line fault }
{
    match fault {
        CurveFault::BadRow(line) => line,
        CurveFault::OutOfRange(line) => line,
        CurveFault::Order(line) => line,
        CurveFault::Gap(line) => line,
        CurveFault::TooMany(line) => line,
        CurveFault::TooFew => 0,
        CurveFault::NoMemory => 0,
    }
}

fn fault_of_curve(file: FileRef, fault: CurveFault) -> FileFault
    ensures { result ≡ fault_of_curve file fault }
{
    match fault {
        CurveFault::NoMemory => FileFault::NoMemory,
        other => FileFault::Refused(file, fault_line(other), FileCause::Curve(other)),
    }
}

/// The curve of a file, whose number is told where it isn't accepted.
pub fn curve_of<H: Shelf>(
    alloc: Global,
    number: u32,
    name: &str,
    shelf: &mut H,
) -> Result<Curve, FileFault>
    ensures read { IfOk result (λ curve. (given : List Name)
        → AreRead given (H.told shelf.old) (H.told shelf.new) (file_as FileKind.Curve number name.now ∷ [])
        (a_curve curve ∷ [])) }
    ensures fault { IfErr result (λ fault. (given : List Name)
        → EndsWith given (H.told shelf.old) (H.told shelf.new) (file_as FileKind.Curve number name.now ∷ []) fault) }
    ensures later { H.faults shelf.old ≤ H.faults shelf.new }
    ensures cause { IfErr result (λ fault. HasRisen fault (H.faults shelf.old) (H.faults shelf.new)) }
{
    let file = FileRef {
        kind: FileKind::Curve,
        number,
    };
    let bytes = bytes_of(alloc, file, name, shelf)?;
    match read_curve(alloc, &bytes) {
        Ok(curve) => Ok(curve),
        Err(fault) => Err(fault_of_curve(file, fault)),
    }
}

fn fault_of_model(file: FileRef, fault: CqlFault) -> FileFault
    ensures { result ≡ fault_of_model file fault.line fault.cause }
{
    match fault.cause {
        CqlCause::NoMemory => FileFault::NoMemory,
        other => FileFault::Refused(file, fault.line, FileCause::Cql(other)),
    }
}

/// Whether one of the curves has the name, ASCII case aside.
fn is_known(curves: &[NamedFile<'_>], name: &Name) -> bool
    ensures { IsTrue result ↔ IsKnown (names_of curves.now) (Some name.now) }
{
    curves
        .iter()
        .any(|curve| curve.name().eq_ignore_ascii_case(name.text()))
}

/// The line on which the bytes of a model name a curve that isn't among these. `None` where they name none such.
fn unknown_line(curves: &[NamedFile<'_>], model: &ModelTree, bytes: &[u8]) -> Option<u32>
    requires few { length bytes.now < 2 ^ 32 - 1 }
    requires spelled { Spells bytes.now model.now }
    ensures some { IfSome result (λ line. NamesUnknown (names_of curves.now) bytes.now line) }
    ensures none { IfNone result (IsKnown (names_of curves.now) model.now.curve) }
{
    if is_known(curves, model.curve()?) {
        None
    } else {
        curve_line(bytes)
    }
}

/// The model of a file, whose number is told where it isn't accepted. It may name one of these curves.
pub fn model_of<H: Shelf>(
    alloc: Global,
    curves: &[NamedFile<'_>],
    number: u32,
    name: &str,
    shelf: &mut H,
) -> Result<ModelTree, FileFault>
    ensures read { IfOk result (λ model.
        AreRead (names_of curves.now) (H.told shelf.old) (H.told shelf.new)
        (file_as FileKind.Model number name.now ∷ []) (a_model model ∷ [])) }
    ensures fault { IfErr result (λ fault.
        EndsWith (names_of curves.now) (H.told shelf.old) (H.told shelf.new)
        (file_as FileKind.Model number name.now ∷ []) fault) }
    ensures later { H.faults shelf.old ≤ H.faults shelf.new }
    ensures cause { IfErr result (λ fault. HasRisen fault (H.faults shelf.old) (H.faults shelf.new)) }
{
    let file = FileRef {
        kind: FileKind::Model,
        number,
    };
    let bytes = bytes_of(alloc, file, name, shelf)?;
    match read_model(alloc, &bytes) {
        Ok(model) => match unknown_line(curves, &model, &bytes) {
            None => Ok(model),
            Some(line) => Err(FileFault::Refused(file, line, FileCause::UnknownCurve)),
        },
        Err(fault) => Err(fault_of_model(file, fault)),
    }
}

fn fault_of_script(file: FileRef, fault: ScriptFault) -> FileFault
    ensures { result ≡ fault_of_script file fault.line fault.cause }
{
    match fault.cause {
        ScriptCause::NoMemory => FileFault::NoMemory,
        other => FileFault::Refused(file, fault.line, FileCause::Script(other)),
    }
}

/// The session script of a file, whose number is told where it isn't accepted.
pub fn script_of<H: Shelf>(
    alloc: Global,
    number: u32,
    name: &str,
    shelf: &mut H,
) -> Result<Script, FileFault>
    ensures read { IfOk result (λ script. (given : List Name)
        → AreRead given (H.told shelf.old) (H.told shelf.new) (file_as FileKind.Session number name.now ∷ [])
        (a_script script ∷ [])) }
    ensures fault { IfErr result (λ fault. (given : List Name)
        → EndsWith given (H.told shelf.old) (H.told shelf.new) (file_as FileKind.Session number name.now ∷ []) fault) }
    ensures later { H.faults shelf.old ≤ H.faults shelf.new }
    ensures cause { IfErr result (λ fault. HasRisen fault (H.faults shelf.old) (H.faults shelf.new)) }
{
    let file = FileRef {
        kind: FileKind::Session,
        number,
    };
    let bytes = bytes_of(alloc, file, name, shelf)?;
    match read_script(alloc, &bytes) {
        Ok(script) => Ok(script),
        Err(fault) => Err(fault_of_script(file, fault)),
    }
}
