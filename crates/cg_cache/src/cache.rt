ghost use Rattle.std.specs.Prelude.{true, false, ◌≡◌, ◌≢◌, ◌↔◌, ℕ, ◌≤◌, ◌<◌, ◌∷◌, [], IfOk, OnOk, OnErr, IfSome, MatchOption, Some, None, IsSome, length, option_map};
ghost use Rattle.std.specs.Arc.{arc_value};
ghost use Rattle.cg_rings.specs.declared.which.Which.TheVariants.{Free, Claimed as InClaimed, Ready};
ghost use Rattle.cg_rings.specs.Lists.{list_of};
ghost use Rattle.cg_cache.specs.Cached.{claim_answer, after_claim, after_publish, after_give_back, owner, stands, HasOnce, Hit, Mine};
ghost use Rattle.cg_cache.specs.Slots.{cached_of, at, IsRoom, IsCache};
ghost use Rattle.cg_cache.specs.Claims.{answered, Hands};

use crate::entry::{Entry, empty_entries, place_of};
use crate::moves::move_front;
use crate::payload::Payload;
use crate::ticket::{Claimed, Ticket};
use cg_code::Code;
use cg_num::NoMemory;
use cg_rings::{Rings, Which};
use std::alloc::{AllocError, Global};
use std::marker::Model;
use std::sync::Arc;

/// At most 256 payloads by their codes, and the claims of seats that make some, in the slots of rings.
///
/// It is seen as its origin, its rings and what each slot holds. `cached_of` reads off the ready codes, the last used
/// first, and the claims, the newest first.
#[derive(Drop)]
pub struct Cache<P: Payload> {
    origin: Arc<P::Origin>,
    rings: Rings,
    entries: Vec<Entry<P>>,
}

impl<P: Payload> Model for Cache<P> {
    ghost use Rattle.std.specs.Arc.{arc_value};
    ghost use Rattle.cg_cache.specs.Slots.{Seen, IsCache, seen_in};

    ghost Value = { Seen P.Origin };

    ghost view = { λ k. seen_in P.code_of P.origin_of (arc_value k.origin) k.rings k.entries.items };

    ghost invariant = { λ k. IsCache (seen_in P.code_of P.origin_of (arc_value k.origin) k.rings k.entries.items) };
}

impl<P: Payload> Cache<P> {
    /// A cache for so many payloads and claims together, of one origin. Nothing is ready or claimed.
    pub fn with_capacity(
        alloc: Global,
        capacity: u16,
        origin: Arc<P::Origin>,
    ) -> Result<Cache<P>, NoMemory>
        requires { capacity ≤ 256 }
        ensures empty { IfOk result (λ cache.
            cached_of cache ≡ record { capacity = capacity; ready = []; claimed = [] }) }
        ensures origin { IfOk result (λ cache. cache.origin ≡ arc_value origin) }
    {
        let rings = Rings::with_slots(alloc, capacity)?;
        rings.are_apart();
        let entries = empty_entries(alloc, capacity)?;
        Ok(Cache {
            origin,
            rings,
            entries,
        })
    }

    /// What the code's payload is, or the ticket that lets the seat make it. `Hit` comes exactly where the code is
    /// ready, `Busy` where it is claimed, with the owner's seat, and `NoRoom` where it is neither and as many codes are
    /// claimed as the capacity. Otherwise the answer is `Mine`, and the last ready code is dropped where no slot was
    /// free.
    pub fn claim(&mut self, seat: u32, code: Arc<Code>) -> Claimed<P>
        ensures answer { IfSome (answered result) (λ answer.
            answer ≡ claim_answer (cached_of self.old) (arc_value code)) }
        ensures lists { IfSome (answered result) (λ answer.
            cached_of self.new ≡ after_claim (cached_of self.old) seat (arc_value code) answer) }
        ensures handed { Hands P.code_of P.origin_of self.old.origin seat (arc_value code) result }
        ensures origin { self.new.origin ≡ self.old.origin }
        ensures no_memory { answered result ≡ None → self.new ≡ self.old }
    {
        if self.is_ready(&code) {
            return match self.use_ready(&code) {
                Ok(payload) => Claimed::Hit(payload),
                Err(_) => Claimed::NoMemory,
            };
        }
        if let Some(owner) = self.owner(&code) {
            return Claimed::Busy(owner);
        }
        let Some(slot) = self.room() else {
            return Claimed::NoRoom;
        };
        let Ok(kept) = Arc::try_clone(&code) else {
            return Claimed::NoMemory;
        };
        self.add_claim(slot, seat, kept);
        Claimed::Mine(Ticket { seat, code })
    }

    /// Keeps what was made under a claim, at the front of the ready payloads, and hands back the ticket's code. Takes
    /// no memory.
    pub fn publish(&mut self, ticket: Ticket, payload: Arc<P>) -> Arc<Code>
        requires claimed { owner (arc_value ticket.code) (cached_of self.old).claimed ≡ Some ticket.seat }
        requires code { P.code_of (arc_value payload) ≡ arc_value ticket.code }
        requires origin { P.origin_of (arc_value payload) ≡ self.old.origin }
        ensures kept { cached_of self.new ≡ after_publish (cached_of self.old) (arc_value ticket.code) }
        ensures origin { self.new.origin ≡ self.old.origin }
        ensures code { arc_value result ≡ arc_value ticket.code }
    {
        let Ticket { seat: _, code } = ticket;
        self.make_ready(&code, payload);
        code
    }

    /// Frees the slot of a claim, and hands back the ticket's code. Takes no memory.
    pub fn give_back(&mut self, ticket: Ticket) -> Arc<Code>
        requires { owner (arc_value ticket.code) (cached_of self.old).claimed ≡ Some ticket.seat }
        ensures freed { cached_of self.new ≡ after_give_back (cached_of self.old) (arc_value ticket.code) }
        ensures origin { self.new.origin ≡ self.old.origin }
        ensures code { arc_value result ≡ arc_value ticket.code }
    {
        let Ticket { seat: _, code } = ticket;
        self.remove_claim(&code);
        code
    }

    /// The rings of the slots. Read by `code_at`, their ready and claimed slots are the ready and claimed codes. Takes
    /// no memory.
    pub fn rings(&self) -> &Rings
        ensures { result.now ≡ self.now.rings }
    {
        &self.rings
    }

    /// The code in a slot. `None` comes exactly for a free one. Takes no memory.
    pub fn code_at(&self, slot: u16) -> Option<&Arc<Code>>
        requires { slot < self.now.rings.slots }
        ensures code { option_map (λ code. arc_value code.now) result ≡ (at self.now.slots slot).code }
        ensures free { (result ≡ None) ↔ (list_of self.now.rings slot ≡ Some Free) }
    {
        self.entries[slot as usize].code.as_ref()
    }

    /// That no code stands twice. Does nothing.
    pub fn has_once(&self)
        ensures { HasOnce (cached_of self.now) }
    {
        let _ = &self.entries;
    }

    // Whether the code has a payload.
    fn is_ready(&self, code: &Code) -> bool
        ensures { result ≡ stands code.now (cached_of self.now).ready }
    {
        match self.slot_in(Which::Ready, code) {
            Some(_) => true,
            None => false,
        }
    }

    // The seat that has claimed the code.
    fn owner(&self, code: &Code) -> Option<u32>
        ensures { result ≡ owner code.now (cached_of self.now).claimed }
    {
        match self.slot_in(Which::Claimed, code) {
            Some(slot) => Some(self.entries[slot as usize].seat),
            None => None,
        }
    }

    // The payload of a code that is ready, which goes to the front.
    fn use_ready(&mut self, code: &Code) -> Result<Arc<P>, AllocError>
        requires { stands code.now (cached_of self.old).ready ≡ true }
        ensures payload { IfOk result (λ payload. (P.code_of (arc_value payload) ≡ code.now)
            × (P.origin_of (arc_value payload) ≡ self.old.origin)) }
        ensures used { OnOk result (cached_of self.new ≡ after_claim (cached_of self.old) 0 code.now Hit) }
        ensures origin { self.new.origin ≡ self.old.origin }
        ensures err { OnErr result (self.new ≡ self.old) }
    {
        let Some(slot) = self.slot_in(Which::Ready, code) else {
            unreachable!()
        };
        let payload = self.payload_in(slot)?;
        move_front(&mut self.rings, Which::Ready, slot);
        Ok(payload)
    }

    // The payload in a ready slot.
    fn payload_in(&self, slot: u16) -> Result<Arc<P>, AllocError>
        requires slot { slot < self.now.rings.slots }
        requires ready { list_of self.now.rings slot ≡ Some Ready }
        ensures code { IfOk result (λ payload. (at self.now.slots slot).code ≡ Some (P.code_of (arc_value payload))) }
        ensures origin { IfOk result (λ payload. P.origin_of (arc_value payload) ≡ self.now.origin) }
    {
        let Some(payload) = &self.entries[slot as usize].payload else {
            unreachable!()
        };
        Arc::try_clone(payload)
    }

    // A slot for a further claim: a free one, or the last ready one.
    fn room(&self) -> Option<u16>
        ensures { MatchOption result (self.now.rings.slots ≤ length self.now.rings.claimed)
            (λ slot. IsRoom self.now.rings slot) }
    {
        match self.rings.first(Which::Free) {
            Some(slot) => Some(slot),
            None => self.rings.last(Which::Ready),
        }
    }

    // Claims a code in a slot with room. A payload in it is dropped.
    fn add_claim(&mut self, slot: u16, seat: u32, code: Arc<Code>)
        requires room { IsRoom self.old.rings slot }
        requires ready { stands (arc_value code) (cached_of self.old).ready ≡ false }
        requires claimed { owner (arc_value code) (cached_of self.old).claimed ≡ None }
        ensures claimed { cached_of self.new ≡ after_claim (cached_of self.old) seat (arc_value code) Mine }
        ensures origin { self.new.origin ≡ self.old.origin }
    {
        self.entries[slot as usize] = Entry {
            code: Some(code),
            seat,
            payload: None,
        };
        move_front(&mut self.rings, Which::Claimed, slot);
    }

    // Puts the payload into the slot of the claim, which becomes ready.
    fn make_ready(&mut self, code: &Code, payload: Arc<P>)
        requires claimed { IsSome (owner code.now (cached_of self.old).claimed) }
        requires code { P.code_of (arc_value payload) ≡ code.now }
        requires origin { P.origin_of (arc_value payload) ≡ self.old.origin }
        ensures kept { cached_of self.new ≡ after_publish (cached_of self.old) code.now }
        ensures origin { self.new.origin ≡ self.old.origin }
    {
        let Some(slot) = self.slot_in(Which::Claimed, code) else {
            unreachable!()
        };
        self.entries[slot as usize].payload = Some(payload);
        move_front(&mut self.rings, Which::Ready, slot);
    }

    // Takes the code out of the slot of the claim, which becomes free.
    fn remove_claim(&mut self, code: &Code)
        requires claimed { IsSome (owner code.now (cached_of self.old).claimed) }
        ensures freed { cached_of self.new ≡ after_give_back (cached_of self.old) code.now }
        ensures origin { self.new.origin ≡ self.old.origin }
    {
        let Some(slot) = self.slot_in(Which::Claimed, code) else {
            unreachable!()
        };
        self.entries[slot as usize].code = None;
        move_front(&mut self.rings, Which::Free, slot);
    }

    // The slot of a list that has the code.
    fn slot_in(&self, list: Which, code: &Code) -> Option<u16>
        ensures found { IfSome result (λ slot. (slot < self.now.rings.slots)
            × (list_of self.now.rings slot ≡ Some list) × ((at self.now.slots slot).code ≡ Some code.now)) }
        ensures none { result ≡ None → (slot : ℕ) → list_of self.now.rings slot ≡ Some list →
            (at self.now.slots slot).code ≢ Some code.now }
        ensures cache { IsCache self.now }
    {
        let Some(place) = place_of(&self.entries, code) else {
            return None;
        };
        let slot = place as u16;
        if self.rings.list_of(slot) == Some(list) {
            return Some(slot);
        }
        None
    }
}
