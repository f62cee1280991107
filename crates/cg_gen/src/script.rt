//! Session scripts.
ghost use Rattle.std.specs.Prelude.{◌≡◌, ◌++◌, ◌<◌, IfOk, OnOk};
ghost use Rattle.cg_gen.specs.Draws.{after};
ghost use Rattle.cg_gen.specs.Texts.{drawn_set, print_line, script_text, set_line};

use crate::draws::Draws;
use crate::pieces::{push_name, push_number};
use cg_num::NoMemory;
use std::alloc::Global;

/// Script `k`, which prints five events, gives one another date, and commits.
pub(crate) fn script_text(alloc: Global, k: u32, draws: &mut Draws) -> Result<Vec<u8>, NoMemory>
    requires { k < 4 }
    ensures text { IfOk result (λ text. text.items ≡ script_text k draws.old) }
    ensures draws { OnOk result (draws.new ≡ after draws.old 3) }
{
    let mut text = Vec::new(alloc);
    text.extend_from_slice(b"open main\ngrid 2799 2600\n")?;
    for i in 0..5 {
        push_print(5 * k + i, &mut text)?;
    }
    push_drawn(draws, &mut text)?;
    text.extend_from_slice(b"ranges \"b1\"\ncommit main\nwork\n")?;
    Ok(text)
}

fn push_print(number: u32, text: &mut Vec<u8>) -> Result<(), NoMemory>
    ensures { OnOk result (text.new.items ≡ text.old.items ++ print_line number) }
{
    text.extend_from_slice(b"print ")?;
    push_name(b"d", number, text)?;
    text.push(b'\n')?;
    Ok(())
}

// The event is drawn first, then its age and its error.
fn push_drawn(draws: &mut Draws, text: &mut Vec<u8>) -> Result<(), NoMemory>
    ensures text { OnOk result (text.new.items ≡ text.old.items ++ drawn_set draws.old) }
    ensures draws { draws.new ≡ after draws.old 3 }
{
    let number = draws.draw(20);
    let age = 2_570 + draws.draw(160);
    let error = 20 + draws.draw(31);
    push_set(number, age, error, text)
}

fn push_set(number: u32, age: u32, error: u32, text: &mut Vec<u8>) -> Result<(), NoMemory>
    ensures { OnOk result (text.new.items ≡ text.old.items ++ set_line number age error) }
{
    text.extend_from_slice(b"set ")?;
    push_name(b"d", number, text)?;
    text.extend_from_slice(b" R_Date(")?;
    push_number(age, text)?;
    text.push(b',')?;
    push_number(error, text)?;
    text.extend_from_slice(b");\n")?;
    Ok(())
}
