ghost use Rattle.std.specs.Prelude.{◌≡◌, ◌<◌, ◌≤◌, ◌↔◌, ◌+◌, length, IsOk, IfOk, IfSome, All, slice_get};
ghost use Rattle.std.specs.Option.{option_copied};
ghost use Rattle.cg_meaning.specs.Tree.{Phase, none, more, count_all, datings_of, datings_of_all, nodes_of_all};
ghost use Rattle.cg_model.specs.Limits.{groups_in, depth_in, IsWithinLimits, AreInPlace, IsInRange, AreInRange};

use crate::dating::Dating;
use crate::name::Name;
use crate::node::{Members, Node};
use cg_num::NoMemory;
use std::alloc::Global;
use std::marker::Model;

const MAX_EVENTS: u32 = 100;

const MAX_GROUPS: u32 = 60;

const MAX_DEPTH: u32 = 16;

/// The tree of a model, and the name of the curve that it asks for.
#[derive(Drop)]
pub struct ModelTree {
    curve: Option<Name>,
    top: Members,
    // lent as the dating of a Boundary
    free: Dating,
}

impl Model for ModelTree {
    ghost use Rattle.cg_meaning.specs.Tree.{Chronology};

    ghost Value = { Chronology };

    ghost use Rattle.cg_model.specs.Stored.{coded_chronology};

    ghost coded = { coded_chronology };

    ghost use Rattle.cg_model.specs.Node.{trees_of};
    ghost use Rattle.cg_model.specs.Limits.{IsModel};

    ghost view = { λ m. record { curve = m.curve; top = trees_of m.top } };

    ghost use Rattle.std.specs.Prelude.{◌≡◌};
    ghost use Rattle.cg_model.specs.declared.dating.Dating.TheVariants.{Free};

    ghost invariant = { λ m. IsModel (trees_of m.top) × (m.free ≡ Free) };
}

/// The first limit that a tree passes, in this order.
#[derive(Clone, Copy, Debug, PartialEq, Eq)]
pub enum Limit {
    /// It has more than 100 events, Boundaries included.
    Events,
    /// It has more than 60 groups.
    Groups,
    /// It has a depth of more than 16, where a top statement has depth 1.
    Depth,
}

impl ModelTree {
    ghost use Rattle.cg_model.specs.Dating.{dating_of};
    ghost use Rattle.cg_model.specs.Event.{number_at};
    ghost use Rattle.cg_model.specs.Node.{tree_of, trees_of};

    /// The model of these top statements, or the first limit that they pass. Takes no memory.
    pub fn new(curve: Option<Name>, top: Members) -> Result<ModelTree, Limit>
        requires placed { AreInPlace Phase (trees_of top) }
        requires ranged { AreInRange (trees_of top) }
        ensures ok { IfOk result (λ model. model ≡ record { curve = curve; top = trees_of top }) }
        ensures within { IsOk result ↔ IsWithinLimits (trees_of top) }
        ensures events { (result ≡ Err Limit.Events) ↔ (100 < count_all (trees_of top)) }
        ensures groups { (result ≡ Err Limit.Groups) ↔ ((count_all (trees_of top) ≤ 100) × (60 < groups_in (trees_of top))) }
        ensures depth { (result ≡ Err Limit.Depth)
            ↔ ((count_all (trees_of top) ≤ 100) × (groups_in (trees_of top) ≤ 60) × (16 < depth_in (trees_of top))) }
    {
        if top.events() > MAX_EVENTS {
            return Err(Limit::Events);
        }
        if top.groups() > MAX_GROUPS {
            return Err(Limit::Groups);
        }
        if top.depth() > MAX_DEPTH {
            return Err(Limit::Depth);
        }
        Ok(ModelTree {
            curve,
            top,
            free: Dating::Free,
        })
    }

    /// The name of the curve that the model asks for. Takes no memory.
    pub fn curve(&self) -> Option<&Name>
        ensures { option_copied result ≡ self.now.curve }
    {
        self.curve.as_ref()
    }

    /// The top statements. Takes no memory.
    pub fn top(&self) -> &Members
        ensures top { trees_of result.now ≡ self.now.top }
        ensures limits { IsWithinLimits self.now.top }
        ensures placed { AreInPlace Phase self.now.top }
        ensures ranged { AreInRange self.now.top }
    {
        &self.top
    }

    /// How many events there are, Boundaries included. Takes no memory.
    pub fn events(&self) -> u32
        ensures events { result ≡ count_all self.now.top }
        ensures few { result ≤ 100 }
    {
        self.top.events()
    }

    /// The dating of an event, counted from 0 in the order of the text: `Free` for a Boundary. Takes no memory.
    pub fn dating(&self, event: u32) -> &Dating
        requires { event < count_all self.now.top }
        ensures dating { slice_get (datings_of_all self.now.top) event ≡ Some (dating_of result.now) }
        ensures ranged { IsInRange (dating_of result.now) }
    {
        match self.top.dating_at(event, &self.free) {
            Ok(dating) => dating,
            Err(_) => unreachable!(),
        }
    }

    /// How many nodes there are: events and groups. Takes no memory.
    pub fn size(&self) -> u32
        ensures nodes { result ≡ length (nodes_of_all self.now.top) }
        ensures few { result ≤ 160 }
    {
        self.top.events() + self.top.groups()
    }

    /// The node at a place, counted from 0 in the order of the text. Takes no memory.
    pub fn node(&self, place: u32) -> &Node
        requires { place < length (nodes_of_all self.now.top) }
        ensures node { slice_get (nodes_of_all self.now.top) place ≡ Some (tree_of result.now) }
        ensures limits { IsWithinLimits (more (tree_of result.now) none) }
        ensures ranged { All IsInRange (datings_of (tree_of result.now)) }
    {
        match self.top.locate(place) {
            Ok(node) => node,
            Err(_) => unreachable!(),
        }
    }

    /// The number of the event at a place, counted from 0 in the order of the text. `None` comes exactly for a group.
    /// Takes no memory.
    pub fn event_number(&self, place: u32) -> Option<u32>
        requires { place < length (nodes_of_all self.now.top) }
        ensures number { result ≡ number_at (nodes_of_all self.now.top) place }
        ensures within { IfSome result (λ number. number < count_all self.now.top) }
    {
        if !self.node(place).is_event() {
            return None;
        }
        let mut number = 0;
        for earlier in 0..place {
            if self.node(earlier).is_event() {
                number += 1;
            }
        }
        Some(number)
    }

    /// An equal model.
    pub fn copy(&self, alloc: Global) -> Result<ModelTree, NoMemory>
        ensures { IfOk result (λ model. model ≡ self.now) }
    {
        let curve = match &self.curve {
            Some(name) => Some(name.copy(alloc)?),
            None => None,
        };
        Ok(ModelTree {
            curve,
            top: self.top.copy(alloc)?,
            free: Dating::Free,
        })
    }
}
