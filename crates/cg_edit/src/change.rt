ghost use Rattle.std.specs.Prelude.{◌≡◌, IfOk};
ghost use Rattle.cg_model.specs.Node.{trees_of};
ghost use Rattle.cg_sharing.specs.Edit.{edited};
ghost use Rattle.cg_sharing.specs.Journal.{IsInOrder};
ghost use Rattle.cg_edit.specs.Plain.{edit_in, IsOutcome};

use crate::copy::{dated_all, extended_all};
use crate::edit::Edit;
use crate::fault::EditFault;
use crate::moved::{preceded_all, renamed_all, without_all};
use cg_model::{Found, Members, ModelTree, Name};
use cg_num::NoMemory;
use std::alloc::Global;

/// The model after a change, or the first fault in the order of `EditFault`. The old model stays.
///
/// Costs one copy of the tree.
pub fn apply(alloc: Global, model: &ModelTree, edit: &Edit) -> Result<ModelTree, EditFault>
    requires { IsInOrder (edit_in edit.now) }
    ensures { IsOutcome model.now (edit_in edit.now) result }
{
    let place = match model.find(edit.target()) {
        Found::Nobody => return Err(EditFault::NoName),
        Found::Many(count) => return Err(EditFault::Ambiguous(count)),
        Found::One(place) => place,
    };
    let before = model.top();
    if let Some(kind) = edit.wrong_kind(model.node(place), before) {
        return Err(EditFault::WrongKind(kind));
    }
    let curve = curve_of(alloc, model)?;
    let top = edited(alloc, before, edit)?;
    match ModelTree::new(curve, top) {
        Ok(after) => Ok(after),
        Err(limit) => Err(EditFault::Limit(limit)),
    }
}

fn edited(alloc: Global, top: &Members, edit: &Edit) -> Result<Members, NoMemory>
    ensures { IfOk result (λ after. trees_of after ≡ edited (edit_in edit.now) (trees_of top.now)) }
{
    match edit {
        Edit::Set(name, dating) => dated_all(alloc, top, name, *dating),
        Edit::Add(name, node) => extended_all(alloc, top, name, node),
        Edit::InsertBefore(name, node) => preceded_all(alloc, top, name, node),
        Edit::Drop(name) => without_all(alloc, top, name),
        Edit::Rename(name, new) => renamed_all(alloc, top, name, new),
    }
}

fn curve_of(alloc: Global, model: &ModelTree) -> Result<Option<Name>, NoMemory>
    ensures { IfOk result (λ curve. curve ≡ model.now.curve) }
{
    match model.curve() {
        Some(name) => Ok(Some(name.copy(alloc)?)),
        None => Ok(None),
    }
}
