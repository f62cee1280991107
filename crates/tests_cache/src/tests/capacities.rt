//! Caches of several capacities, in which each ticket is spent at once.
use crate::tests::marks::{Made, Mark, code, make};
use crate::tests::rings::slots_in;
use Spent::{GivenBack, Published};
use Told::{Hit, Mine, NoRoom};
use cg_cache::{Cache, Claimed};
use cg_rings::Which;
use std::alloc::Global;
use std::sync::Arc;
use std::test::Fail;

/// An answer to a claim.
#[derive(Clone, Copy, Debug, PartialEq, Eq)]
enum Told {
    Hit,
    Mine,
    Busy(u32),
    NoRoom,
    NoMemory,
}

/// What a ticket is spent by.
#[derive(Clone, Copy)]
enum Spent {
    Published,
    GivenBack,
}

/// The answer to a claim of the code of this number. A ticket is spent at once.
fn claim(alloc: Global, cache: &mut Cache<Mark>, number: u16, spent: Spent) -> Result<Told, Fail> {
    let Made { code, mark } = make(alloc, number)?;
    Ok(match cache.claim(1, code) {
        Claimed::Hit(_) => Told::Hit,
        Claimed::Mine(ticket) => {
            match spent {
                Spent::Published => cache.publish(ticket, mark),
                Spent::GivenBack => cache.give_back(ticket),
            };
            Told::Mine
        }
        Claimed::Busy(seat) => Told::Busy(seat),
        Claimed::NoRoom => Told::NoRoom,
        Claimed::NoMemory => Told::NoMemory,
    })
}

/// A cache of this capacity after the codes from 0 to that number were claimed and published, one after another.
fn filled(alloc: Global, capacity: u16) -> Result<Cache<Mark>, Fail> {
    if capacity > 256 {
        return Err("no capacity".into());
    }
    let mut cache = Cache::with_capacity(alloc, capacity, Arc::new(alloc, ())?)?;
    for number in 0..=capacity {
        let told = claim(alloc, &mut cache, number, Spent::Published)?;
        let want = if capacity == 0 {
            Told::NoRoom
        } else {
            Told::Mine
        };
        if told != want {
            return Err("not filled".into());
        }
    }
    Ok(cache)
}

/// Whether the code of this number is in a slot.
fn is_at(alloc: Global, cache: &Cache<Mark>, slot: u16, number: u16) -> Result<bool, Fail> {
    if slot >= cache.rings().slots() {
        return Err("no slot".into());
    }
    let code = code(alloc, number)?;
    Ok(cache.code_at(slot).map(|own| **own == code) == Some(true))
}

/// Whether so many codes are ready, these in front and this one at the end.
fn is_ready(
    alloc: Global,
    cache: &Cache<Mark>,
    front: &[u16],
    end: Option<u16>,
    count: usize,
) -> Result<bool, Fail> {
    let slots = slots_in(alloc, cache.rings(), Which::Ready)?;
    if slots.len() != count || slots.len() < front.len() {
        return Ok(false);
    }
    for (slot, number) in slots.iter().zip(front) {
        if !is_at(alloc, cache, *slot, *number)? {
            return Ok(false);
        }
    }
    match (slots.last(), end) {
        (Some(slot), Some(number)) => is_at(alloc, cache, *slot, number),
        (None, None) => Ok(true),
        _ => Ok(false),
    }
}

// The capacity of a filled cache, the number of the code that is claimed, and what a ticket is spent by; the answer, and
// the ready codes then: those in front, the last one, and how many there are. Code 1 is the last one in a filled cache, and
// code 0 isn't in it.
static CLAIMS: [(u16, u16, Spent, Told, &[u16], Option<u16>, usize); 15] = [
    (0, 1, Published, NoRoom, &[], None, 0),
    (1, 1, Published, Hit, &[1], Some(1), 1),
    (2, 1, Published, Hit, &[1, 2], Some(2), 2),
    (64, 1, Published, Hit, &[1, 64, 63], Some(2), 64),
    (256, 1, Published, Hit, &[1, 256, 255], Some(2), 256),
    (0, 0, Published, NoRoom, &[], None, 0),
    (1, 0, Published, Mine, &[0], Some(0), 1),
    (2, 0, Published, Mine, &[0, 2], Some(2), 2),
    (64, 0, Published, Mine, &[0, 64, 63], Some(2), 64),
    (256, 0, Published, Mine, &[0, 256, 255], Some(2), 256),
    (0, 0, GivenBack, NoRoom, &[], None, 0),
    (1, 0, GivenBack, Mine, &[], None, 0),
    (2, 0, GivenBack, Mine, &[2], Some(2), 1),
    (64, 0, GivenBack, Mine, &[64, 63], Some(2), 63),
    (256, 0, GivenBack, Mine, &[256, 255], Some(2), 255),
];

#[test]
fn claims(rt: HostRuntime) -> Result<(), Fail> {
    for (capacity, number, spent, want, front, end, count) in &CLAIMS {
        let mut cache = filled(rt.alloc(), *capacity)?;
        let told = claim(rt.alloc(), &mut cache, *number, *spent)?;
        assert_eq!(rt; told, *want, "{number} at {capacity}");
        let right = is_ready(rt.alloc(), &cache, front, *end, *count)?;
        assert!(rt; right, "{number} at {capacity}");
    }
    Ok(())
}
