ghost use Rattle.std.specs.Prelude.{◌≡◌, ◌++◌, Some, IfOk, OnOk, OnErr};
ghost use Rattle.cg_writing.specs.Text.{curve_text, model_text};

use crate::argument::push_quoted;
use crate::statement::push_members;
use cg_model::{ModelTree, Name};
use cg_num::NoMemory;
use std::alloc::Global;

fn push_curve(file: &Name, text: &mut Vec<u8>) -> Result<(), NoMemory>
    ensures { OnOk result (text.new.items ≡ text.old.items ++ curve_text (Some file.now)) }
{
    text.extend_from_slice(b"Curve(")?;
    push_quoted(file, text)?;
    text.extend_from_slice(b");\n")?;
    Ok(())
}

/// The canonical text of a model: its curve, where it names one, and a line for each statement, behind one blank for
/// each group around it.
pub fn model_text(alloc: Global, model: &ModelTree) -> Result<Vec<u8>, NoMemory>
    ensures { IfOk result (λ text. text.items ≡ model_text model.now) }
{
    let mut text = Vec::new(alloc);
    if let Some(file) = model.curve() {
        push_curve(file, &mut text)?;
    }
    push_members(alloc, model.top(), 0, &mut text)?;
    Ok(text)
}

/// Appends the canonical text of a model.
///
/// `NoMemory` leaves `out` as it was.
pub fn write_model(alloc: Global, model: &ModelTree, out: &mut Vec<u8>) -> Result<(), NoMemory>
    ensures ok { OnOk result (out.new.items ≡ out.old.items ++ model_text model.now) }
    ensures err { OnErr result (out.new.items ≡ out.old.items) }
{
    let text = model_text(alloc, model)?;
    out.extend_from_slice(text.as_slice())?;
    Ok(())
}
