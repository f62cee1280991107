ghost use Rattle.std.specs.Prelude.{◌≡◌, ℕ, ◌+◌, ◌-◌, ◌<◌, ◌≤◌, [], IfOk, Some, None, IsSome, length, slice_get, slice_index_or, nat_lt, if◌then◌else◌};
ghost use Rattle.std.specs.List.{range_with_len};
ghost use Rattle.cg_rings.specs.Lists.{list_in, list_of, unlinked, pushed, AreApart};
ghost use Rattle.cg_rings.specs.Threaded.{end_of};

use crate::links::Links;
use crate::steps::Steps;
use crate::which::Which;
use cg_num::NoMemory;
use std::alloc::{AllocError, Global};
use std::marker::{Brand, Model};
use std::sync::ledger::{Blank, Ledger};

/// At most 256 slots, some of them in one of three lists.
#[derive(Drop)]
pub struct Rings {
    links: Links,
    notes: Vec<Option<Which>>,
}

impl Model for Rings {
    ghost use Rattle.std.specs.Prelude.{length};
    ghost use Rattle.cg_rings.specs.Lists.{Lists};

    ghost Value = { Lists };

    ghost use Rattle.cg_rings.specs.Threaded.{seen, AreRings};

    ghost view = { λ r. seen (length r.notes.items) r.links };

    ghost invariant = { λ r. AreRings r.links r.notes.items (seen (length r.notes.items) r.links) };
}

impl Rings {
    /// All slots are in `Free`, from 0 on.
    pub fn with_slots(alloc: Global, count: u16) -> Result<Rings, NoMemory>
        requires { count ≤ 256 }
        ensures { IfOk result (λ rings.
            rings ≡ record { slots = count; free = range_with_len 0 count; claimed = []; ready = [] }) }
    {
        let mut rings = Rings::empty(alloc, count)?;
        rings.fill::<Brand>(count, Blank::new(1));
        Ok(rings)
    }

    // Rings without a slot in any list.
    fn empty(alloc: Global, count: u16) -> Result<Rings, NoMemory>
        requires { count ≤ 256 }
        ensures { IfOk result (λ rings. rings ≡ record { slots = count; free = []; claimed = []; ready = [] }) }
    {
        let links = Links::alone(alloc, count + 3)?;
        let notes = no_notes(alloc, count)?;
        Ok(Rings { links, notes })
    }

    // Puts all slots into `Free`, the last one first.
    fn fill<L: Ledger>(&mut self, count: u16, blank: Blank)
        requires name { blank.name ≡ L.name }
        requires parts { blank.parts ≡ L.parts }
        requires some { 0 < L.parts }
        requires empty { self.old ≡ record { slots = count; free = []; claimed = []; ready = [] } }
        ensures { self.new ≡ record { slots = count; free = range_with_len 0 count; claimed = []; ready = [] } }
    {
        let mut steps = Steps::<L>::open(blank);
        for slot in (0..count).rev() {
            self.push_front(Which::Free, slot, &mut steps);
        }
    }

    /// Takes a slot out of its list. At most two links are written, one tick each. Takes no memory.
    pub fn unlink<L: Ledger>(&mut self, slot: u16, steps: &mut Steps<L>)
        requires { IsSome (list_of self.old slot) }
        ensures lists { self.new ≡ unlinked slot self.old }
        ensures out { list_of self.new slot ≡ None }
        ensures known { slot < self.new.slots }
        ensures ticks { steps.new ≤ steps.old + 2 }
    {
        let before = self.links.prev(slot);
        let after = self.links.next(slot);
        self.links.join(before, after, steps);
        self.notes[slot as usize] = None;
    }

    /// Puts a slot that is in no list at the front of one. At most four links are written, one tick each. Takes no
    /// memory.
    pub fn push_front<L: Ledger>(&mut self, list: Which, slot: u16, steps: &mut Steps<L>)
        requires known { slot < self.old.slots }
        requires out { list_of self.old slot ≡ None }
        ensures lists { self.new ≡ pushed list slot self.old }
        ensures ticks { steps.new ≤ steps.old + 4 }
    {
        let end = self.end_of(list);
        let first = self.links.next(end);
        self.links.join(end, slot, steps);
        self.links.join(slot, first, steps);
        self.notes[slot as usize] = Some(list);
    }

    /// Takes a slot out of its list and puts it at the front of one, which may be the same. At most six links are
    /// written, one tick each. Takes no memory.
    pub fn move_front<L: Ledger>(&mut self, list: Which, slot: u16, steps: &mut Steps<L>)
        requires { IsSome (list_of self.old slot) }
        ensures lists { self.new ≡ pushed list slot (unlinked slot self.old) }
        ensures ticks { steps.new ≤ steps.old + 6 }
    {
        self.unlink(slot, steps);
        self.push_front(list, slot, steps);
    }

    /// The slot at the front of a list. `None` comes exactly where the list is empty. Takes no memory.
    pub fn first(&self, list: Which) -> Option<u16>
        ensures { result ≡ slice_get (list_in self.now list) 0 }
    {
        self.slot_at(self.links.next(self.end_of(list)))
    }

    /// The slot at the end of a list. `None` comes exactly where the list is empty. Takes no memory.
    pub fn last(&self, list: Which) -> Option<u16>
        ensures { result ≡ slice_get (list_in self.now list) (length (list_in self.now list) - 1) }
    {
        self.slot_at(self.links.prev(self.end_of(list)))
    }

    /// The slot after one in its list. `None` comes exactly where it is the last. Takes no memory.
    pub fn next(&self, slot: u16) -> Option<u16>
        requires { IsSome (list_of self.now slot) }
        ensures { (list : Which) (place : ℕ) → slice_get (list_in self.now list) place ≡ Some slot →
            result ≡ slice_get (list_in self.now list) (place + 1) }
    {
        self.slot_at(self.links.next(slot))
    }

    /// The list of a slot. `None` comes exactly where it is in none. Takes no memory.
    pub fn list_of(&self, slot: u16) -> Option<Which>
        requires { slot < self.now.slots }
        ensures { result ≡ list_of self.now slot }
    {
        self.notes[slot as usize]
    }

    /// How many slots there are. Takes no memory.
    pub fn slots(&self) -> u16
        ensures slots { result ≡ self.now.slots }
        ensures few { result ≤ 256 }
    {
        self.notes.len() as u16
    }

    /// That no slot is in two lists, or twice in one. Does nothing.
    pub fn are_apart(&self)
        ensures { AreApart self.now }
    {
        let _ = &self.notes;
    }

    // The node that closes the ring of a list.
    fn end_of(&self, list: Which) -> u16
        ensures { result ≡ end_of self.now.slots list }
    {
        let slots = self.slots();
        match list {
            Which::Free => slots,
            Which::Claimed => slots + 1,
            Which::Ready => slots + 2,
        }
    }

    // A node, where it is a slot.
    fn slot_at(&self, node: u16) -> Option<u16>
        ensures { result ≡ (if nat_lt node self.now.slots then Some node else None) }
    {
        if node < self.slots() {
            Some(node)
        } else {
            None
        }
    }
}

// So many slots that are in no list.
fn no_notes(alloc: Global, count: u16) -> Result<Vec<Option<Which>>, AllocError>
    ensures count { IfOk result (λ notes. length notes.items ≡ count) }
    ensures none { IfOk result (λ notes. (slot : ℕ) → slice_index_or notes.items slot None ≡ None) }
{
    let mut notes = Vec::new(alloc);
    for _slot in 0..count {
        notes.push(None)?;
    }
    Ok(notes)
}
