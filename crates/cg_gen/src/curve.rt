//! The file of a curve.
ghost use Rattle.std.specs.Prelude.{◌≡◌, ◌++◌, ◌≤◌, IfOk, OnOk};
ghost use Rattle.cg_gen.specs.Draws.{after};
ghost use Rattle.cg_gen.specs.Texts.{curve_text, drawn_row, row_text};

use crate::draws::Draws;
use crate::pieces::push_number;
use cg_num::NoMemory;
use std::alloc::Global;

/// A row for each tenth year from 3000 to 2000 cal BP.
pub(crate) fn curve_text(alloc: Global, draws: &mut Draws) -> Result<Vec<u8>, NoMemory>
    ensures text { IfOk result (λ text. text.items ≡ curve_text draws.old) }
    ensures draws { OnOk result (draws.new ≡ after draws.old 202) }
{
    let mut text = Vec::new(alloc);
    text.extend_from_slice(b"# generated\n")?;
    for i in 0..101 {
        push_drawn(3_000 - 10 * i, draws, &mut text)?;
    }
    Ok(text)
}

// Appends the row of a year: its age is drawn first, then its sigma.
fn push_drawn(bp: u32, draws: &mut Draws, text: &mut Vec<u8>) -> Result<(), NoMemory>
    requires { (70 ≤ bp) × (bp ≤ 3000) }
    ensures text { OnOk result (text.new.items ≡ text.old.items ++ drawn_row bp draws.old) }
    ensures draws { draws.new ≡ after draws.old 2 }
{
    let age = bp - 70 + draws.draw(41);
    let sigma = 10 + draws.draw(11);
    push_row(bp, age, sigma, text)
}

fn push_row(bp: u32, age: u32, sigma: u32, text: &mut Vec<u8>) -> Result<(), NoMemory>
    ensures { OnOk result (text.new.items ≡ text.old.items ++ row_text bp age sigma) }
{
    push_number(bp, text)?;
    text.push(b',')?;
    push_number(age, text)?;
    text.push(b',')?;
    push_number(sigma, text)?;
    text.push(b'\n')?;
    Ok(())
}
