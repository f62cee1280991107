//! A node as its table sees it, in the code.
ghost use Rattle.std.specs.Prelude.{◌≡◌, [], ◌∷◌, ◌++◌, OnOk};
ghost use Rattle.cg_message.specs.Placed.{none};

use cg_model::GroupKind;
use cg_num::NoMemory;
use sqlite_items::Items;
use std::alloc::Global;

/// An event by its number and its place, a group of elements by its place, or a span: what stands between two
/// Boundaries, and the number of the one that closes it. Places are those of nodes in the text.
#[cycle(element)]
#[derive(Drop)]
pub(crate) enum Element {
    Event(u32, u32),
    Group(GroupKind, u32, Elements),
    Span(Elements, u32),
}

/// Elements one after another.
#[cycle(element)]
#[derive(Drop)]
pub(crate) struct Elements {
    items: Items<Element>,
}

impl Elements {
    ghost use Rattle.cg_message.specs.Element.{all_placed, items_in, places_in, placed_in};
    ghost use Rattle.cg_message.specs.Placed.{elements_with, joined};

    /// No elements. They take their memory from `alloc` as they grow.
    pub(crate) fn new(alloc: Global) -> Elements
        ensures { places_in result ≡ none }
    {
        Elements {
            items: Items::new(alloc),
        }
    }

    /// Puts the element behind the others.
    pub(crate) fn push(&mut self, e: Element) -> Result<(), NoMemory>
        ensures { OnOk result (places_in self.new ≡ elements_with (places_in self.old) (placed_in e)) }
    {
        self.items.push(e)?;
        Ok(())
    }

    /// Puts all of `more` behind the others.
    pub(crate) fn append(&mut self, more: Elements) -> Result<(), NoMemory>
        ensures { OnOk result (places_in self.new ≡ joined (places_in self.old) (places_in more)) }
    {
        self.items.append(more.items)?;
        Ok(())
    }

    /// The elements, one after another. Takes no memory.
    pub(crate) fn items(&self) -> &[Element]
        ensures items { result.now ≡ items_in self.now }
        ensures elements { places_in self.now ≡ all_placed result.now }
    {
        self.items.as_slice()
    }
}
