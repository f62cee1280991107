//! Which events an element has, and how many of them are open.
ghost use Rattle.std.specs.Prelude.{◌≡◌, ◌≤◌, ◌<◌, true, false, length, slice_get, take, Some};
ghost use Rattle.cg_part.specs.Elements.{has, has_among, open_events, open_in};
ghost use Rattle.cg_recipe.specs.Bounds.{events_in, events_among};
ghost use Rattle.cg_message.specs.Element.{all_in, all_placed, element_in, placed_in};
ghost use Rattle.cg_message.specs.Placed.{joined, more};

use crate::element::Element;
use cg_model::GroupKind;

/// How many of the elements' events have no pair of Boundaries within them.
#[cycle(open)]
pub(crate) fn open_in(items: &[Element]) -> u32
    requires { events_among (all_in items.now) ≤ 100 }
    ensures { result ≡ open_in (all_in items.now) }
{
    let mut sum = 0;
    for e in items {
        sum += open_events(e);
    }
    sum
}

// Of a span the Boundary that closes it.
#[cycle(open)]
fn open_events(e: &Element) -> u32
    requires { events_in (element_in e.now) ≤ 100 }
    ensures { result ≡ open_events (element_in e.now) }
{
    match e {
        Element::Event(_, _) | Element::Span(_, _) => 1,
        Element::Group(kind, _, elements) => match kind {
            GroupKind::Sequence | GroupKind::Phase => open_in(elements.items()),
            GroupKind::After | GroupKind::Before => 0,
        },
    }
}

/// The elements before the one that has the event, that one, and those behind it.
pub(crate) fn around(event: u32, items: &[Element]) -> (&[Element], &Element, &[Element])
    requires { has_among event (all_in items.now) ≡ true }
    ensures all { all_placed items.now
        ≡ joined (all_placed result.0.now) (more (placed_in result.1.now) (all_placed result.2.now)) }
    ensures before { has_among event (all_in result.0.now) ≡ false }
    ensures own { has event (element_in result.1.now) ≡ true }
{
    let place = place_of(event, items);
    (&items[..place], &items[place], &items[place + 1..])
}

// One of them has it, so that the end isn't reached.
fn place_of(event: u32, items: &[Element]) -> usize
    requires { has_among event (all_in items.now) ≡ true }
    ensures within { result < length items.now }
    ensures before { has_among event (all_in (take result items.now)) ≡ false }
    ensures own { (e : Element) → slice_get items.now result ≡ Some e → has event (element_in e) ≡ true }
{
    for (place, e) in items.iter().enumerate() {
        if has(event, e) {
            return place;
        }
    }
    items.len()
}

// Whether the event is in the element.
#[cycle(has)]
fn has(event: u32, e: &Element) -> bool
    ensures { result ≡ has event (element_in e.now) }
{
    match e {
        Element::Event(number, _) => event == *number,
        Element::Group(_, _, elements) => has_among(event, elements.items()),
        Element::Span(elements, closing) => {
            has_among(event, elements.items()) || event == *closing
        }
    }
}

#[cycle(has)]
fn has_among(event: u32, items: &[Element]) -> bool
    ensures { result ≡ has_among event (all_in items.now) }
{
    for e in items {
        if has(event, e) {
            return true;
        }
    }
    false
}
