//! Two seats at a cache of capacity 2, with tickets that are kept for a while.
ghost use Rattle.std.specs.Prelude.{◌≡◌, ◌≢◌, Some, List, ℕ};
ghost use Rattle.std.specs.Arc.{arc_value};
ghost use Rattle.cg_cache.specs.Cached.{owner};
ghost use Rattle.cg_cache.specs.Slots.{cached_of};

use crate::tests::marks::{Made, Mark, make};
use cg_cache::{Cache, Claimed, Payload, Ticket};
use cg_code::Code;
use std::alloc::Global;
use std::process::Abort;
use std::sync::Arc;
use std::test::Fail;

fn copy<R: Abort>(rt: &R, code: &Arc<Code>) -> Arc<Code>
    ensures { arc_value result ≡ arc_value code.now }
{
    match Arc::try_clone(code) {
        Ok(code) => code,
        Err(_) => panic!(rt; "no memory"),
    }
}

/// The ticket of a claim that is answered by one.
fn ticket<R: Abort>(rt: &R, cache: &mut Cache<Mark>, seat: u32, code: &Arc<Code>) -> Ticket
    ensures code { arc_value result.code ≡ arc_value code.now }
    ensures owned { owner (arc_value result.code) (cached_of cache.new).claimed ≡ Some result.seat }
    ensures others { (other : List ℕ) (of : ℕ) → owner other (cached_of cache.old).claimed ≡ Some of →
        (other ≢ arc_value result.code) × (owner other (cached_of cache.new).claimed ≡ Some of) }
{
    match cache.claim(seat, copy(rt, code)) {
        Claimed::Mine(ticket) => ticket,
        Claimed::Hit(_) | Claimed::Busy(_) | Claimed::NoRoom | Claimed::NoMemory => {
            panic!(rt; "no ticket")
        }
    }
}

/// An answer without a ticket: a hit, the seat that has the claim, or no room.
#[derive(Clone, Copy, Debug, PartialEq, Eq)]
enum Told {
    Hit,
    Busy(u32),
    NoRoom,
}

/// The answer to a claim that isn't answered by a ticket.
fn answer<R: Abort>(rt: &R, cache: &mut Cache<Mark>, seat: u32, code: &Arc<Code>) -> Told
    ensures { (cached_of cache.new).claimed ≡ (cached_of cache.old).claimed }
{
    match cache.claim(seat, copy(rt, code)) {
        Claimed::Hit(mark) => {
            assert!(rt; *mark.code() == **code);
            Told::Hit
        }
        Claimed::Busy(seat) => Told::Busy(seat),
        Claimed::NoRoom => Told::NoRoom,
        Claimed::NoMemory => panic!(rt; "no memory"),
        Claimed::Mine(ticket) => {
            cache.give_back(ticket);
            panic!(rt; "a ticket")
        }
    }
}

fn assert_claims<R: Abort>(rt: &R, alloc: Global) -> Result<(), Fail> {
    let mut cache = Cache::with_capacity(alloc, 2, Arc::new(alloc, ())?)?;
    let Made { code: code_a, mark } = make(alloc, 0)?;
    let Made { code: code_b, .. } = make(alloc, 1)?;
    let Made {
        code: code_c,
        mark: other,
    } = make(alloc, 2)?;
    let first = ticket(rt, &mut cache, 1, &code_a);
    assert!(rt; *first.code() == *code_a);
    assert_eq!(rt; answer(rt, &mut cache, 2, &code_a), Told::Busy(1));
    let second = ticket(rt, &mut cache, 2, &code_b);
    assert_eq!(rt; answer(rt, &mut cache, 1, &code_c), Told::NoRoom);
    cache.publish(first, mark);
    // with the third the code of the first is dropped
    let third = ticket(rt, &mut cache, 2, &code_c);
    assert_eq!(rt; answer(rt, &mut cache, 1, &code_a), Told::NoRoom);
    cache.give_back(second);
    let fourth = ticket(rt, &mut cache, 1, &code_a);
    cache.publish(third, other);
    assert_eq!(rt; answer(rt, &mut cache, 1, &code_c), Told::Hit);
    cache.give_back(fourth);
    cache.has_once();
    Ok(())
}

#[test]
fn two_seats(rt: HostRuntime) -> Result<(), Fail> {
    assert_claims(&rt, rt.alloc())
}
