//! Three lists of slots, by what is done with them.
ghost use Rattle.std.specs.Prelude.{◌≡◌, ◌<◌};

use Done::{Moved, Pushed, Unlinked};
use Which::{Claimed, Free, Ready};
use cg_rings::{Rings, Steps, Which};
use std::alloc::Global;
use std::marker::Brand;
use std::process::Abort;
use std::sync::ledger::{Blank, Ledger};
use std::test::Fail;

/// The slots of a list, read from its front.
pub(crate) fn slots_in(alloc: Global, rings: &Rings, list: Which) -> Result<Vec<u16>, Fail> {
    let mut slots = Vec::new(alloc);
    let mut next = rings.first(list);
    for _ in 0..rings.slots() {
        let Some(slot) = next else {
            return Ok(slots);
        };
        slots.push(slot)?;
        if slot >= rings.slots() || rings.list_of(slot).is_none() {
            return Err("a list with a slot of none".into());
        }
        next = rings.next(slot);
    }
    Ok(slots)
}

static COUNTS: [(u16, Option<u16>); 5] = [
    (0, None),
    (1, Some(0)),
    (2, Some(1)),
    (64, Some(63)),
    (256, Some(255)),
];

/// All slots are free at first, from 0 on.
#[test]
fn free_at_first(rt: HostRuntime) -> Result<(), Fail> {
    for (count, last) in &COUNTS {
        assert!(rt; *count <= 256);
        let rings = Rings::with_slots(rt.alloc(), *count)?;
        assert_eq!(rt; rings.slots(), *count);
        assert_eq!(rt; rings.last(Free), *last, "{count}");
        let free = slots_in(rt.alloc(), &rings, Free)?;
        assert_eq!(rt; free.len(), *count as usize);
        for (slot, place) in free.iter().zip(0..*count) {
            assert_eq!(rt; *slot, place);
        }
        assert_eq!(rt; rings.first(Claimed), None);
        assert_eq!(rt; rings.first(Ready), None);
    }
    Ok(())
}

/// What is done with a slot.
#[derive(Debug)]
enum Done {
    Unlinked,
    Pushed(Which),
    Moved(Which),
}

// of three slots what is done with one, one after another, and the free, the claimed and the ready ones then
static DONE: [(u16, Done, [&[u16]; 3]); 9] = [
    (1, Moved(Claimed), [&[0, 2], &[1], &[]]),
    (1, Moved(Ready), [&[0, 2], &[], &[1]]),
    (0, Moved(Ready), [&[2], &[], &[0, 1]]),
    (1, Moved(Ready), [&[2], &[], &[1, 0]]),
    (2, Unlinked, [&[], &[], &[1, 0]]),
    (2, Pushed(Ready), [&[], &[], &[2, 1, 0]]),
    (1, Unlinked, [&[], &[], &[2, 0]]),
    (1, Pushed(Claimed), [&[], &[1], &[2, 0]]),
    (2, Moved(Free), [&[2], &[1], &[0]]),
];

fn change<L: Ledger>(
    rings: &mut Rings,
    slot: u16,
    done: &Done,
    steps: &mut Steps<L>,
) -> Result<(), Fail> {
    if slot >= rings.slots() {
        return Err("no such slot".into());
    }
    match (done, rings.list_of(slot)) {
        (Unlinked, Some(_)) => rings.unlink(slot, steps),
        (Pushed(list), None) => rings.push_front(*list, slot, steps),
        (Moved(list), Some(_)) => rings.move_front(*list, slot, steps),
        _ => return Err("the slot is elsewhere".into()),
    }
    Ok(())
}

fn assert_done<L: Ledger, R: Abort>(rt: &R, alloc: Global, blank: Blank) -> Result<(), Fail>
    requires name { blank.name ≡ L.name }
    requires parts { blank.parts ≡ L.parts }
    requires some { 0 < L.parts }
{
    let mut steps = Steps::<L>::open(blank);
    let mut rings = Rings::with_slots(alloc, 3)?;
    for (slot, done, [free, claimed, ready]) in &DONE {
        change(&mut rings, *slot, done, &mut steps)?;
        assert!(rt;
            slots_in(alloc, &rings, Free)?.as_slice() == *free,
            "{slot} {done:?}"
        );
        assert!(rt;
            slots_in(alloc, &rings, Claimed)?.as_slice() == *claimed,
            "{slot} {done:?}"
        );
        assert!(rt;
            slots_in(alloc, &rings, Ready)?.as_slice() == *ready,
            "{slot} {done:?}"
        );
        assert_eq!(rt; rings.last(Ready), ready.last().copied(), "{slot} {done:?}");
    }
    rings.are_apart();
    Ok(())
}

#[test]
fn changes(rt: HostRuntime) -> Result<(), Fail> {
    assert_done::<Brand, _>(&rt, rt.alloc(), Blank::new(1))
}
