ghost use Rattle.std.specs.Prelude.{◌≡◌, ◌<◌, ◌≤◌, ◌↔◌, length, IfOk};

use cg_num::NoMemory;
use std::alloc::{AllocError, Global};
use std::marker::Model;

const MAX_BYTES: usize = 120;

/// The name of a node or of a curve: a text of at most 120 bytes, which may be empty.
#[derive(Drop)]
pub struct Name {
    text: String,
}

impl Model for Name {
    ghost use Rattle.std.specs.Prelude.{List, ℕ, string_bytes, length, ◌≤◌};

    ghost Value = { List ℕ };

    ghost view = { λ n. string_bytes n.text };

    ghost invariant = { λ n. length (string_bytes n.text) ≤ 120 };
}

/// Why a text is no name.
#[derive(Clone, Copy, Debug, PartialEq, Eq)]
pub enum NameFault {
    /// It has more than 120 bytes.
    TooLong,
    /// There was no memory for it.
    NoMemory,
}

impl From<AllocError> for NameFault {
    ghost use Rattle.cg_model.specs.declared.name.NameFault.TheVariants.{NoMemory};

    ghost from_gives = { λ _ e. e ≡ NoMemory };

    fn from(_refused: AllocError) -> NameFault {
        NameFault::NoMemory
    }
}

impl Name {
    /// The name of this text. `TooLong` comes exactly above 120 bytes.
    pub fn new(alloc: Global, text: &str) -> Result<Name, NameFault>
        ensures ok { IfOk result (λ name. name ≡ text.now) }
        ensures too_long { (result ≡ Err NameFault.TooLong) ↔ (120 < length text.now) }
    {
        if text.len() > MAX_BYTES {
            return Err(NameFault::TooLong);
        }
        Ok(Name {
            text: String::from_str(alloc, text)?,
        })
    }

    /// The text of the name.
    pub fn text(&self) -> &str
        ensures text { result.now ≡ self.now }
        ensures short { length result.now ≤ 120 }
    {
        self.text.as_str()
    }

    /// An equal name.
    pub fn copy(&self, alloc: Global) -> Result<Name, NoMemory>
        ensures { IfOk result (λ name. name ≡ self.now) }
    {
        Ok(Name {
            text: String::from_str(alloc, self.text.as_str())?,
        })
    }
}
