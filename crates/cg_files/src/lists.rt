//! The files of one kind, one after the other.

ghost use Rattle.std.specs.Prelude.{◌≡◌, ◌≢◌, ◌≤◌, List, length, map, AllPairs, IfOk, IfErr};
ghost use Rattle.cg_meaning.specs.Tree.{Name};
ghost use Rattle.cg_curve.specs.Curves.{IsSameCurveName};
ghost use Rattle.cg_files.specs.Reading.{AreRead, EndsWith, HasRisen};
ghost use Rattle.cg_files.specs.Inputs.{names_of, curve_files, model_files, session_files, said_of_curves, said_of_models, said_of_scripts};

use crate::file::FileFault;
use crate::read::{curve_of, model_of, script_of};
use cg_curve::Curves;
use cg_io::Shelf;
use cg_script::Script;
use cg_text::name_of;
use cg_versions::StartModels;
use cg_words::NamedFile;
use std::alloc::Global;

/// The curves of these files, under their names.
pub fn read_curves<H: Shelf>(
    alloc: Global,
    named: &[NamedFile<'_>],
    shelf: &mut H,
) -> Result<Curves, FileFault>
    requires few { length named.now ≤ 4 }
    requires distinct { AllPairs (λ a b. ¬ IsSameCurveName a.name b.name) named.now }
    ensures read { IfOk result (λ curves. (given : List Name)
        → AreRead given (H.told shelf.old) (H.told shelf.new) (curve_files named.now) (said_of_curves curves)) }
    ensures names { IfOk result (λ curves. map (λ one. one.name) curves ≡ names_of named.now) }
    ensures fault { IfErr result (λ fault. (given : List Name)
        → EndsWith given (H.told shelf.old) (H.told shelf.new) (curve_files named.now) fault) }
    ensures later { H.faults shelf.old ≤ H.faults shelf.new }
    ensures cause { IfErr result (λ fault. HasRisen fault (H.faults shelf.old) (H.faults shelf.new)) }
{
    let mut curves = Curves::new(alloc);
    for (place, one) in named.iter().enumerate() {
        let curve = curve_of(alloc, place as u32 + 1, one.file(), shelf)?;
        curves.push(one.name().as_bytes(), curve)?;
    }
    Ok(curves)
}

/// The models of these files, under their names. Each may name one of the curves.
pub fn read_models<H: Shelf>(
    alloc: Global,
    curves: &[NamedFile<'_>],
    named: &[NamedFile<'_>],
    shelf: &mut H,
) -> Result<StartModels, FileFault>
    requires few { length named.now ≤ 8 }
    requires distinct { AllPairs (λ a b. a.name ≢ b.name) named.now }
    ensures read { IfOk result (λ models.
        AreRead (names_of curves.now) (H.told shelf.old) (H.told shelf.new) (model_files named.now)
        (said_of_models models)) }
    ensures names { IfOk result (λ models. map (λ one. one.name) models ≡ names_of named.now) }
    ensures fault { IfErr result (λ fault.
        EndsWith (names_of curves.now) (H.told shelf.old) (H.told shelf.new) (model_files named.now) fault) }
    ensures later { H.faults shelf.old ≤ H.faults shelf.new }
    ensures cause { IfErr result (λ fault. HasRisen fault (H.faults shelf.old) (H.faults shelf.new)) }
{
    let mut models = StartModels::new(alloc);
    for (place, one) in named.iter().enumerate() {
        let model = model_of(alloc, curves, place as u32 + 1, one.file(), shelf)?;
        models.push(name_of(alloc, one.name())?, model)?;
    }
    Ok(models)
}

/// The session scripts of these files.
pub fn read_scripts<H: Shelf>(
    alloc: Global,
    files: &[&str],
    shelf: &mut H,
) -> Result<Vec<Script>, FileFault>
    requires { length files.now ≤ 8 }
    ensures read { IfOk result (λ scripts. (given : List Name)
        → AreRead given (H.told shelf.old) (H.told shelf.new) (session_files (map (λ file. file.now) files.now))
        (said_of_scripts scripts.items)) }
    ensures count { IfOk result (λ scripts. length scripts.items ≡ length files.now) }
    ensures fault { IfErr result (λ fault. (given : List Name)
        → EndsWith given (H.told shelf.old) (H.told shelf.new) (session_files (map (λ file. file.now) files.now))
        fault) }
    ensures later { H.faults shelf.old ≤ H.faults shelf.new }
    ensures cause { IfErr result (λ fault. HasRisen fault (H.faults shelf.old) (H.faults shelf.new)) }
{
    let mut scripts = Vec::new(alloc);
    for (place, file) in files.iter().enumerate() {
        scripts.push(script_of(alloc, place as u32 + 1, file, shelf)?)?;
    }
    Ok(scripts)
}
