//! A tree as its tables see it, in the code.
ghost use Rattle.std.specs.Prelude.{◌≡◌, [], ◌∷◌, ◌++◌, OnOk};
ghost use Rattle.cg_part.specs.Elements.{none};

use cg_model::GroupKind;
use cg_num::NoMemory;
use sqlite_items::Items;
use std::alloc::Global;

/// An event by its number, a group of elements, or a span: what stands between two Boundaries, and the number of the
/// one that closes it.
#[cycle(element)]
#[derive(Drop)]
pub(crate) enum Element {
    Event(u32),
    Group(GroupKind, Elements),
    Span(Elements, u32),
}

/// Elements one after another.
#[cycle(element)]
#[derive(Drop)]
pub(crate) struct Elements {
    items: Items<Element>,
}

impl Elements {
    ghost use Rattle.cg_up.specs.Element.{all_in, element_in, elements_in, elements_with, items_in, joined};

    /// No elements. They take their memory from `alloc` as they grow.
    pub(crate) fn new(alloc: Global) -> Elements
        ensures { elements_in result ≡ none }
    {
        Elements {
            items: Items::new(alloc),
        }
    }

    /// Puts the element behind the others.
    pub(crate) fn push(&mut self, e: Element) -> Result<(), NoMemory>
        ensures { OnOk result (elements_in self.new ≡ elements_with (elements_in self.old) (element_in e)) }
    {
        self.items.push(e)?;
        Ok(())
    }

    /// Puts all of `more` behind the others.
    pub(crate) fn append(&mut self, more: Elements) -> Result<(), NoMemory>
        ensures { OnOk result (elements_in self.new ≡ joined (elements_in self.old) (elements_in more)) }
    {
        self.items.append(more.items)?;
        Ok(())
    }

    /// The elements, one after another. Takes no memory.
    pub(crate) fn items(&self) -> &[Element]
        ensures items { result.now ≡ items_in self.now }
        ensures elements { elements_in self.now ≡ all_in result.now }
    {
        self.items.as_slice()
    }
}
