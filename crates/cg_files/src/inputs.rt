//! All files of a request.

ghost use Rattle.std.specs.Prelude.{◌≤◌, length, IfOk, IfErr};
ghost use Rattle.cg_files.specs.Shelf.{Reads};
ghost use Rattle.cg_files.specs.Reading.{EndsWith, HasRisen};
ghost use Rattle.cg_files.specs.Inputs.{names_of, files_of, inputs_in, AreInputs};

use crate::file::FileFault;
use crate::lists::{read_curves, read_models, read_scripts};
use cg_curve::Curves;
use cg_io::Shelf;
use cg_script::Script;
use cg_versions::StartModels;
use cg_words::Request;
use std::alloc::Global;

/// What the files of a request say.
#[derive(Drop)]
pub struct Inputs {
    /// The curves, by the names that the request gives them.
    pub curves: Curves,
    /// The models, by the names that the request gives them.
    pub models: StartModels,
    /// The session scripts.
    pub scripts: Vec<Script>,
}

/// Reads the files of a request, each once: curves, models, session scripts, each list in its order. The first file
/// whose read fails or that is refused is told, and no later file is read. A model that names a curve which the request
/// doesn't give is refused.
pub fn read_all<H: Shelf>(
    alloc: Global,
    request: &Request<'_>,
    shelf: &mut H,
) -> Result<Inputs, FileFault>
    ensures inputs { IfOk result (λ inputs. AreInputs (H.told shelf.old) request.now (inputs_in inputs)) }
    ensures few { IfOk result (λ inputs. length inputs.scripts.items ≤ 8) }
    ensures reads { IfOk result (λ inputs.
        Reads (length (files_of request.now)) (H.told shelf.old) (H.told shelf.new)) }
    ensures fault { IfErr result (λ fault.
        EndsWith (names_of request.now.curves) (H.told shelf.old) (H.told shelf.new) (files_of request.now) fault) }
    ensures later { H.faults shelf.old ≤ H.faults shelf.new }
    ensures cause { IfErr result (λ fault. HasRisen fault (H.faults shelf.old) (H.faults shelf.new)) }
{
    let named = request.curves();
    let curves = read_curves(alloc, named, shelf)?;
    let models = read_models(alloc, named, request.models(), shelf)?;
    let scripts = read_scripts(alloc, request.sessions(), shelf)?;
    Ok(Inputs {
        curves,
        models,
        scripts,
    })
}
