//! The items of a Sequence as far as its members have been read.
ghost use Rattle.std.specs.Prelude.{◌≡◌, IfOk, OnOk, false};
ghost use Rattle.cg_message.specs.Placed.{none};
ghost use Rattle.cg_message.specs.Arranged.{all_items, arranged_in, with_boundary, with_element};
ghost use Rattle.cg_message.specs.Element.{placed_in, places_in};

use crate::element::{Element, Elements};
use cg_num::NoMemory;
use std::alloc::Global;
use std::mem;

/// The items up to the last Boundary, and the elements behind it, which are a span once another Boundary closes it.
#[derive(Drop)]
pub(crate) struct Arranged {
    closed: Elements,
    segment: Elements,
    behind: bool,
}

impl Arranged {
    /// No members yet.
    pub(crate) fn new(alloc: Global) -> Arranged
        ensures { arranged_in result ≡ record { closed = none; segment = none; behind = false } }
    {
        Arranged {
            closed: Elements::new(alloc),
            segment: Elements::new(alloc),
            behind: false,
        }
    }

    /// One more element, which is no Boundary.
    pub(crate) fn push(&mut self, e: Element) -> Result<(), NoMemory>
        ensures { OnOk result (arranged_in self.new ≡ with_element (arranged_in self.old) (placed_in e)) }
    {
        self.segment.push(e)
    }

    /// One more Boundary, by its number and its place.
    pub(crate) fn push_boundary(
        &mut self,
        alloc: Global,
        number: u32,
        place: u32,
    ) -> Result<(), NoMemory>
        ensures { OnOk result (arranged_in self.new ≡ with_boundary (arranged_in self.old) number place) }
    {
        let segment = mem::replace(&mut self.segment, Elements::new(alloc));
        if self.behind {
            return self.closed.push(Element::Span(segment, number));
        }
        self.behind = true;
        self.closed.append(segment)?;
        self.closed.push(Element::Event(number, place))
    }

    /// All items, where no more members follow.
    pub(crate) fn items(self) -> Result<Elements, NoMemory>
        ensures { IfOk result (λ es. places_in es ≡ all_items (arranged_in self)) }
    {
        let Arranged {
            mut closed,
            segment,
            ..
        } = self;
        closed.append(segment)?;
        Ok(closed)
    }
}
