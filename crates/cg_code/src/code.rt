ghost use Rattle.std.specs.Prelude.{◌≡◌, [], ◌++◌, bytes_eq, IfOk, OnOk};
ghost use Rattle.std.specs.Cmp.{partial_equiv_from_equiv};
ghost use Rattle.std.specs.Cmp.Lexicographic.{nat_list_eq_equiv};

use cg_num::NoMemory;
use std::alloc::Global;
use std::marker::Model;

/// A code: its bytes say what an evaluation computes. Two are equal where their bytes are.
#[derive(Drop, Debug)]
pub struct Code {
    bytes: Vec<u8>,
}

impl Model for Code {
    ghost use Rattle.std.specs.Prelude.{List, ℕ};

    ghost Value = { List ℕ };

    ghost view = { λ c. c.bytes.items };
}

impl Code {
    pub(crate) fn new(alloc: Global) -> Code
        ensures { result ≡ [] }
    {
        Code {
            bytes: Vec::new(alloc),
        }
    }

    // puts bytes behind those so far
    pub(crate) fn push(&mut self, bytes: &[u8]) -> Result<(), NoMemory>
        ensures { OnOk result (self.new ≡ self.old ++ bytes.now) }
    {
        self.bytes.extend_from_slice(bytes)?;
        Ok(())
    }

    /// The bytes. Takes no memory.
    pub fn bytes(&self) -> &[u8]
        ensures { result.now ≡ self.now }
    {
        self.bytes.as_slice()
    }

    /// An equal code.
    pub fn copy(&self, alloc: Global) -> Result<Code, NoMemory>
        ensures { IfOk result (λ code. code ≡ self.now) }
    {
        Ok(Code {
            bytes: Vec::from_slice(alloc, self.bytes.as_slice())?,
        })
    }
}

impl PartialEq for Code {
    ghost eq = { bytes_eq };

    ghost laws = { partial_equiv_from_equiv nat_list_eq_equiv };

    fn eq(&self, other: &Code) -> bool {
        self.bytes() == other.bytes()
    }
}

impl Eq for Code {
    ghost laws = { nat_list_eq_equiv };
}
