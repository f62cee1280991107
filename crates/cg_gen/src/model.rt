//! The canonical text of a model.
ghost use Rattle.std.specs.Prelude.{◌≡◌, ◌*◌, [], ◌++◌, ◌≤◌, codes, pos, IfOk, OnOk};
ghost use Rattle.cg_meaning.specs.Tree.{Carbon};
ghost use Rattle.cg_writing.specs.Text.{call_text, line, model_text, name_text, statement_text, values_text};
ghost use Rattle.cg_gen.specs.Draws.{after};
ghost use Rattle.cg_gen.specs.Texts.{boundary, dated, drawn_date, model, numbered, phase};

use crate::draws::Draws;
use crate::pieces::{push_name, push_number};
use cg_num::NoMemory;
use std::alloc::Global;

/// A Sequence of two Phases between three Boundaries.
pub(crate) fn model_text(alloc: Global, draws: &mut Draws) -> Result<Vec<u8>, NoMemory>
    ensures text { IfOk result (λ text. text.items ≡ model_text (model draws.old)) }
    ensures draws { OnOk result (draws.new ≡ after draws.old 40) }
{
    let mut text = Vec::new(alloc);
    text.extend_from_slice(b"Curve(\"C.14c\");\nSequence(\"s\"){\n")?;
    push_boundary(0, &mut text)?;
    push_phase(0, 2_690, draws, &mut text)?;
    push_boundary(1, &mut text)?;
    push_phase(1, 2_570, draws, &mut text)?;
    push_boundary(2, &mut text)?;
    text.extend_from_slice(b"};\n")?;
    Ok(text)
}

fn push_boundary(number: u32, text: &mut Vec<u8>) -> Result<(), NoMemory>
    ensures { OnOk result (text.new.items ≡ text.old.items ++ statement_text 1 (boundary number)) }
{
    text.extend_from_slice(b" Boundary(")?;
    push_name(b"b", number, text)?;
    text.extend_from_slice(b");\n")?;
    Ok(())
}

// Appends a Phase of ten dates, of ages from the least one on.
fn push_phase(
    number: u32,
    least: u32,
    draws: &mut Draws,
    text: &mut Vec<u8>,
) -> Result<(), NoMemory>
    requires { (number ≤ 1) × (least ≤ 3000) }
    ensures text { OnOk result (text.new.items ≡ text.old.items ++ statement_text 1 (phase number least draws.old)) }
    ensures draws { OnOk result (draws.new ≡ after draws.old 20) }
{
    push_opening(number, text)?;
    for i in 0..10 {
        push_drawn(10 * number + i, least, draws, text)?;
    }
    text.extend_from_slice(b" };\n")?;
    Ok(())
}

fn push_opening(number: u32, text: &mut Vec<u8>) -> Result<(), NoMemory>
    ensures { OnOk result (text.new.items ≡ text.old.items
        ++ line 1 (call_text (codes "Phase") (name_text (numbered (codes "p") number) []) ++ codes "{")) }
{
    text.extend_from_slice(b" Phase(")?;
    push_name(b"p", number, text)?;
    text.extend_from_slice(b"){\n")?;
    Ok(())
}

// Appends a radiocarbon date: its age is drawn first, then its error.
fn push_drawn(
    number: u32,
    least: u32,
    draws: &mut Draws,
    text: &mut Vec<u8>,
) -> Result<(), NoMemory>
    requires { least ≤ 3000 }
    ensures text { OnOk result (text.new.items ≡ text.old.items ++ statement_text 2 (drawn_date number least draws.old)) }
    ensures draws { draws.new ≡ after draws.old 2 }
{
    let age = least + draws.draw(40);
    let error = 20 + draws.draw(31);
    push_dated(number, age, error, text)
}

fn push_dated(number: u32, age: u32, error: u32, text: &mut Vec<u8>) -> Result<(), NoMemory>
    ensures { OnOk result (text.new.items ≡ text.old.items ++ statement_text 2 (dated number age error)) }
{
    text.extend_from_slice(b"  R_Date(")?;
    push_name(b"d", number, text)?;
    text.push(b',')?;
    push_values(age, error, text)?;
    text.extend_from_slice(b");\n")?;
    Ok(())
}

fn push_values(age: u32, error: u32, text: &mut Vec<u8>) -> Result<(), NoMemory>
    ensures { OnOk result (text.new.items ≡ text.old.items ++ values_text (Carbon (pos (1000 * age)) (pos (1000 * error)))) }
{
    push_number(age, text)?;
    text.push(b',')?;
    push_number(error, text)?;
    Ok(())
}
