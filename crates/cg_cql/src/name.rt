//! The words that causes tell, as names.
ghost use Rattle.std.specs.Prelude.{◌≡◌, IfOk};
ghost use Rattle.cg_token.specs.Cut.{IsWord};
ghost use Rattle.cg_grammar.specs.Steps.{cut_word};

use cg_model::Name;
use cg_num::NoMemory;
use cg_text::name_of;
use std::alloc::Global;

const MAX_BYTES: usize = 120;

fn word_text(word: &[u8]) -> &str
    requires { IsWord word.now }
    ensures { result.now ≡ word.now }
{
    match str::from_utf8(word) {
        Ok(text) => text,
        Err(_) => unreachable!(),
    }
}

/// The word as a name, cut to its first 120 bytes.
pub fn name_of_word(alloc: Global, word: &[u8]) -> Result<Name, NoMemory>
    requires { IsWord word.now }
    ensures { IfOk result (λ name. name ≡ cut_word word.now) }
{
    let (short, _) = word.split_at(word.len().min(MAX_BYTES));
    name_of(alloc, word_text(short))
}
