ghost use Rattle.std.specs.Prelude.{◌≡◌, ◌≢◌, ℕ, [], Some, None, OnOk, OnErr, option_map};
ghost use Rattle.std.specs.Arc.{arc_value};
ghost use Rattle.cg_message.specs.Parts.{part_at};

use crate::message::Message;
use cg_num::NoMemory;
use std::alloc::Global;
use std::marker::Model;
use std::sync::Arc;

/// Messages by place: that of a node stands at the node's place in the text, counted from 0.
///
/// They are seen as what each place has, up to some place, and `part_at` says what stands at a place.
#[derive(Drop)]
pub struct Parts {
    slots: Vec<Option<Arc<Message>>>,
}

impl Model for Parts {
    ghost use Rattle.std.specs.Prelude.{List, Option};
    ghost use Rattle.std.specs.Arc.{arc_value};
    ghost use Rattle.cg_message.specs.Parts.{seen_in};
    ghost use Rattle.cg_message.specs.Value.{Seen};

    ghost Value = { List (Option Seen) };

    ghost view = { λ p. seen_in (λ m. arc_value m) p.slots.items };
}

impl Parts {
    /// No messages. They take their memory from `alloc` as they come.
    pub fn new(alloc: Global) -> Parts
        ensures { (place : ℕ) → part_at result place ≡ None }
    {
        Parts {
            slots: Vec::new(alloc),
        }
    }

    /// Sets the message of a place. After `NoMemory` all places have what they had.
    pub fn put(&mut self, place: u32, m: Arc<Message>) -> Result<(), NoMemory>
        ensures put { OnOk result (part_at self.new place ≡ Some (arc_value m)) }
        ensures others { (other : ℕ) → other ≢ place → part_at self.new other ≡ part_at self.old other }
        ensures err { OnErr result ((other : ℕ) → part_at self.new other ≡ part_at self.old other) }
    {
        while self.slots.len() <= place as usize {
            self.slots.push(None)?;
        }
        self.slots[place as usize] = Some(m);
        Ok(())
    }

    /// The message of a place. `None` comes exactly where the place has none. Takes no memory.
    pub fn get(&self, place: u32) -> Option<&Arc<Message>>
        ensures { option_map (λ m. arc_value m.now) result ≡ part_at self.now place }
    {
        match self.slots.get(place as usize) {
            Some(slot) => slot.as_ref(),
            None => None,
        }
    }

    /// Takes out the message of a place. Takes no memory.
    pub fn forget(&mut self, place: u32)
        ensures gone { part_at self.new place ≡ None }
        ensures others { (other : ℕ) → other ≢ place → part_at self.new other ≡ part_at self.old other }
    {
        if self.slots.len() <= place as usize {
            return;
        }
        self.slots[place as usize] = None;
    }
}
