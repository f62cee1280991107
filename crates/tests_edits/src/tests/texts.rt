//! Models, names and changes of texts.
ghost use Rattle.std.specs.Prelude.{◌≡◌, IfOk};
ghost use Rattle.cg_sharing.specs.Journal.{IsInOrder};
ghost use Rattle.cg_sharing.specs.Course.{IsFit};
ghost use Rattle.cg_edit.specs.Plain.{edit_in};
ghost use Rattle.cg_script.specs.Command.{command_in};

use cg_cql::read_model;
use cg_edit::Edit;
use cg_grammar::CqlFault;
use cg_model::{ModelTree, Name};
use cg_script::{Command, Script, read_script};
use std::alloc::{AllocError, Global};
use std::test::Fail;

const MAX_BYTES: usize = 100_000;

pub(crate) fn name(alloc: Global, text: &str) -> Result<Name, Fail>
    ensures { IfOk result (λ name. name ≡ text.now) }
{
    Ok(Name::new(alloc, text)?)
}

fn read_short(alloc: Global, text: &str) -> Result<ModelTree, Option<CqlFault>> {
    if text.len() > MAX_BYTES {
        return Err(None);
    }
    match read_model(alloc, text.as_bytes()) {
        Ok(model) => Ok(model),
        Err(fault) => Err(Some(fault)),
    }
}

pub(crate) fn model(alloc: Global, text: &str) -> Result<ModelTree, Fail> {
    match read_short(alloc, text) {
        Ok(model) => Ok(model),
        Err(_) => Err("no model".into()),
    }
}

fn copied(alloc: Global, command: &Command) -> Result<Edit, Fail>
    requires { IsFit (command_in command.now) }
    ensures { IfOk result (λ edit. IsInOrder (edit_in edit)) }
{
    match command {
        Command::Change(edit) => Ok(edit.copy(alloc)?),
        _ => Err("no change".into()),
    }
}

fn only_change(alloc: Global, script: &Script) -> Result<Edit, Fail>
    ensures { IfOk result (λ edit. IsInOrder (edit_in edit)) }
{
    if script.len() != 1 {
        return Err("not one line".into());
    }
    copied(alloc, script.get(0).1)
}

// the change of a script of one line
pub(crate) fn change(alloc: Global, line: &str) -> Result<Edit, Fail>
    ensures { IfOk result (λ edit. IsInOrder (edit_in edit)) }
{
    if line.len() > MAX_BYTES {
        return Err("a long line".into());
    }
    match read_script(alloc, line.as_bytes()) {
        Ok(script) => only_change(alloc, &script),
        Err(_) => Err("no script".into()),
    }
}

// a text with so many parts alike
pub(crate) fn repeated(
    alloc: Global,
    head: &str,
    part: &str,
    count: u32,
    tail: &str,
) -> Result<String, AllocError> {
    let mut text = String::from_str(alloc, head)?;
    for _ in 0..count {
        text.push_str(part)?;
    }
    text.push_str(tail)?;
    Ok(text)
}
