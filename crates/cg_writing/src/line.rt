//! The two ends of a line.
ghost use Rattle.std.specs.Prelude.{◌≡◌, ◌++◌, replicate, codes, OnOk};
ghost use Rattle.cg_writing.specs.Text.{line};

use cg_num::NoMemory;

/// Appends one blank for each group around a statement.
pub(crate) fn push_blanks(depth: usize, text: &mut Vec<u8>) -> Result<(), NoMemory>
    ensures { OnOk result (text.new.items ≡ text.old.items ++ replicate depth 32) }
{
    for _ in 0..depth {
        text.push(b' ')?;
    }
    Ok(())
}

/// Appends the line that closes a group.
pub(crate) fn push_closing(depth: usize, text: &mut Vec<u8>) -> Result<(), NoMemory>
    ensures { OnOk result (text.new.items ≡ text.old.items ++ line depth (codes "};")) }
{
    push_blanks(depth, text)?;
    text.extend_from_slice(b"};\n")?;
    Ok(())
}
