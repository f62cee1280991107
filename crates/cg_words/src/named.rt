ghost use Rattle.std.specs.Prelude.{◌≡◌, ◌↔◌, IfSome, IfNone, IsTrue};
ghost use Rattle.cg_text.specs.Names.{IsName};
ghost use Rattle.cg_words.specs.Words.{IsFile, IsNamedFile, NamesNothing, part_text};

use cg_text::is_name;
use std::marker::Model;

/// A file that is known by a name.
#[derive(Drop)]
pub struct NamedFile<'a> {
    name: &'a str,
    file: &'a str,
}

impl<'a> Model for NamedFile<'a> {
    ghost use Rattle.cg_words.specs.Words as words;

    ghost Value = { words.NamedFile };

    ghost view = { λ n. record { name = n.name.now; file = n.file.now } };

    ghost invariant = { λ n. words.IsNamedFile (record { name = n.name.now; file = n.file.now }) };
}

impl<'a> NamedFile<'a> {
    /// The name, of 1 to 64 ASCII letters, digits, `_`, `-` or `.`.
    pub fn name(&self) -> &'a str
        ensures name { result.now ≡ self.now.name }
        ensures sound { IsName result.now }
    {
        self.name
    }

    /// The file, of 1 to 240 bytes without a comma.
    pub fn file(&self) -> &'a str
        ensures file { result.now ≡ self.now.file }
        ensures sound { IsFile result.now }
    {
        self.file
    }
}

/// Whether the text is a FILE.
pub fn is_file(text: &str) -> bool
    ensures { IsTrue result ↔ IsFile text.now }
{
    !text.is_empty() && text.len() <= 240 && !text.as_bytes().contains(&b',')
}

/// The name and the file of a NAME=FILE, which is cut at its first `=`.
pub fn named_file(text: &str) -> Option<NamedFile<'_>>
    ensures some { IfSome result (λ named. IsNamedFile named × (text.now ≡ part_text named)) }
    ensures none { IfNone result (NamesNothing text.now) }
{
    match text.split_once('=') {
        Some((name, file)) => {
            if is_name(name) && is_file(file) {
                Some(NamedFile { name, file })
            } else {
                None
            }
        }
        None => None,
    }
}
