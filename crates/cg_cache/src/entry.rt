ghost use Rattle.std.specs.Prelude.{◌≡◌, option_map, position, IfOk, All, length};
ghost use Rattle.std.specs.Arc.{arc_value};
ghost use Rattle.cg_cache.specs.Slots.{has_code};

use cg_code::Code;
use std::alloc::{AllocError, Global};
use std::sync::Arc;

/// What a slot holds: nothing, a code that a seat has claimed, or a code and its payload.
#[derive(Drop)]
pub(crate) struct Entry<P> {
    pub(crate) code: Option<Arc<Code>>,
    pub(crate) seat: u32,
    pub(crate) payload: Option<Arc<P>>,
}

impl<P> Entry<P> {
    pub(crate) fn has(&self, code: &Code) -> bool
        ensures { result ≡ has_code code.now (option_map (λ c. arc_value c) self.now.code) }
    {
        match &self.code {
            Some(own) => *code == **own,
            None => false,
        }
    }
}

// The first place of a code.
pub(crate) fn place_of<P>(entries: &[Entry<P>], code: &Code) -> Option<usize>
    ensures { result ≡ position (λ e. has_code code.now (option_map (λ c. arc_value c) e.code)) entries.now }
{
    entries.iter().position(|entry| entry.has(code))
}

// So many entries that hold nothing.
pub(crate) fn empty_entries<P: Drop>(alloc: Global, count: u16) -> Result<Vec<Entry<P>>, AllocError>
    ensures count { IfOk result (λ entries. length entries.items ≡ count) }
    ensures nothing { IfOk result (λ entries.
        All (λ entry. entry ≡ record { code = None; seat = 0; payload = None }) entries.items) }
{
    let mut entries = Vec::new(alloc);
    for _entry in 0..count {
        entries.push(Entry {
            code: None,
            seat: 0,
            payload: None,
        })?;
    }
    Ok(entries)
}
