//! The claims of a session that prints from a cache, by what it counts.
ghost use Rattle.std.specs.Prelude.{◌≡◌, Some, List, ℕ};
ghost use Rattle.std.specs.Arc.{arc_value};
ghost use Rattle.cg_cache.specs.Cached.{owner};
ghost use Rattle.cg_cache.specs.Slots.{cached_of};

use crate::tests::marks::{Made, Mark, make};
use cg_cache::{Cache, Claimed};
use std::alloc::Global;
use std::sync::Arc;
use std::test::Fail;

/// How often a session has claimed, with what answers, and how often it has published.
#[derive(Clone, Copy)]
struct Work {
    claims: u32,
    hits: u32,
    mine: u32,
    busy: u32,
    no_room: u32,
    published: u32,
}

impl Work {
    fn counts(&self) -> [u32; 6] {
        [
            self.claims,
            self.hits,
            self.mine,
            self.busy,
            self.no_room,
            self.published,
        ]
    }
}

fn count(number: &mut u32) {
    *number = number.saturating_add(1);
}

/// Claims a part, and publishes it where there is a ticket.
fn get_part(cache: &mut Cache<Mark>, part: Made, work: &mut Work)
    requires { arc_value part.mark ≡ arc_value part.code }
    ensures { (code : List ℕ) (seat : ℕ) → owner code (cached_of cache.old).claimed ≡ Some seat →
        owner code (cached_of cache.new).claimed ≡ Some seat }
{
    count(&mut work.claims);
    match cache.claim(1, part.code) {
        Claimed::Hit(_) => count(&mut work.hits),
        Claimed::Mine(ticket) => {
            count(&mut work.mine);
            cache.publish(ticket, part.mark);
            count(&mut work.published);
        }
        Claimed::Busy(_) => count(&mut work.busy),
        Claimed::NoRoom => count(&mut work.no_room),
        Claimed::NoMemory => {}
    }
}

/// Claims a marginal. Where it isn't ready its one part is got, and it is published where there is a ticket.
fn print(cache: &mut Cache<Mark>, marginal: Made, part: Made, work: &mut Work)
    requires marginal { arc_value marginal.mark ≡ arc_value marginal.code }
    requires part { arc_value part.mark ≡ arc_value part.code }
{
    count(&mut work.claims);
    match cache.claim(1, marginal.code) {
        Claimed::Hit(_) => count(&mut work.hits),
        Claimed::Mine(ticket) => {
            count(&mut work.mine);
            get_part(cache, part, work);
            cache.publish(ticket, marginal.mark);
            count(&mut work.published);
        }
        Claimed::Busy(_) => {
            count(&mut work.busy);
            get_part(cache, part, work);
        }
        Claimed::NoRoom => {
            count(&mut work.no_room);
            get_part(cache, part, work);
        }
        Claimed::NoMemory => {}
    }
}

/// The counts after two prints of one model, and after a third print of another.
fn counts(alloc: Global, capacity: u16) -> Result<([u32; 6], [u32; 6]), Fail> {
    if capacity > 256 {
        return Err("no capacity".into());
    }
    let mut cache = Cache::with_capacity(alloc, capacity, Arc::new(alloc, ())?)?;
    let mut work = Work {
        claims: 0,
        hits: 0,
        mine: 0,
        busy: 0,
        no_room: 0,
        published: 0,
    };
    print(&mut cache, make(alloc, 0)?, make(alloc, 1)?, &mut work);
    print(&mut cache, make(alloc, 0)?, make(alloc, 1)?, &mut work);
    let two = work.counts();
    print(&mut cache, make(alloc, 2)?, make(alloc, 3)?, &mut work);
    Ok((two, work.counts()))
}

// claims, hits, tickets, busy answers, answers without room, and what was published; after two prints, and after three
static SMALL: [(u16, [u32; 6], [u32; 6]); 5] = [
    (0, [4, 0, 0, 0, 4, 0], [6, 0, 0, 0, 6, 0]),
    (1, [3, 1, 1, 0, 1, 1], [5, 1, 2, 0, 2, 2]),
    (2, [3, 1, 2, 0, 0, 2], [5, 1, 4, 0, 0, 4]),
    (64, [3, 1, 2, 0, 0, 2], [5, 1, 4, 0, 0, 4]),
    (256, [3, 1, 2, 0, 0, 2], [5, 1, 4, 0, 0, 4]),
];

/// At capacity 1 the part has no room while the marginal is claimed.
#[test]
fn small_caches(rt: HostRuntime) -> Result<(), Fail> {
    for (capacity, two, three) in &SMALL {
        let counts = counts(rt.alloc(), *capacity)?;
        assert_eq!(rt; counts, (*two, *three), "{capacity}");
    }
    Ok(())
}
