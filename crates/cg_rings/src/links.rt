//! Links between nodes, both ways.
ghost use Rattle.std.specs.Prelude.{◌≡◌, ◌+◌, ◌<◌, ◌≤◌, ◌^◌, IfOk, length, slice_index};
ghost use Rattle.std.specs.List.{range_with_len};
ghost use Rattle.cg_rings.specs.Links.{joined, with_next, with_prev};

use crate::steps::Steps;
use std::alloc::{AllocError, Global};
use std::marker::Model;
use std::sync::ledger::Ledger;

/// A next and a previous node for each node.
#[derive(Drop)]
pub(crate) struct Links {
    next: Vec<u16>,
    prev: Vec<u16>,
}

impl Model for Links {
    ghost use Rattle.cg_rings.specs.Links.{Arrows, AreArrows};

    ghost Value = { Arrows };

    ghost view = { λ l. record { next = l.next.items; prev = l.prev.items } };

    ghost invariant = { λ l. AreArrows (record { next = l.next.items; prev = l.prev.items }) };
}

impl Links {
    /// Each node is next to itself.
    pub(crate) fn alone(alloc: Global, nodes: u16) -> Result<Links, AllocError>
        ensures { IfOk result (λ links.
            links ≡ record { next = range_with_len 0 nodes; prev = range_with_len 0 nodes }) }
    {
        let next = numbers(alloc, nodes)?;
        let prev = numbers(alloc, nodes)?;
        Ok(Links { next, prev })
    }

    /// The node after one.
    pub(crate) fn next(&self, node: u16) -> u16
        requires { node < length self.now.next }
        ensures next { result ≡ slice_index self.now.next node }
        ensures known { result < length self.now.next }
    {
        self.next[node as usize]
    }

    /// The node before one.
    pub(crate) fn prev(&self, node: u16) -> u16
        requires { node < length self.now.next }
        ensures prev { result ≡ slice_index self.now.prev node }
        ensures known { result < length self.now.next }
    {
        self.prev[node as usize]
    }

    /// Lets `after` come right after `node`: two links are written.
    pub(crate) fn join<L: Ledger>(&mut self, node: u16, after: u16, steps: &mut Steps<L>)
        requires node { node < length self.old.next }
        requires after { after < length self.old.next }
        ensures joined { self.new ≡ joined node after self.old }
        ensures ticks { steps.new ≡ steps.old + 2 }
    {
        self.set_next(node, after, steps);
        self.set_prev(after, node, steps);
    }

    // Writes one link, and counts it.
    fn set_next<L: Ledger>(&mut self, node: u16, to: u16, steps: &mut Steps<L>)
        requires node { node < length self.old.next }
        requires to { to < length self.old.next }
        ensures set { self.new ≡ with_next node to self.old }
        ensures ticks { steps.new ≡ steps.old + 1 }
    {
        steps.tick();
        self.next[node as usize] = to;
    }

    // Writes one link, and counts it.
    fn set_prev<L: Ledger>(&mut self, node: u16, to: u16, steps: &mut Steps<L>)
        requires node { node < length self.old.next }
        requires to { to < length self.old.next }
        ensures set { self.new ≡ with_prev node to self.old }
        ensures ticks { steps.new ≡ steps.old + 1 }
    {
        steps.tick();
        self.prev[node as usize] = to;
    }
}

// The numbers from 0 to below a count.
fn numbers(alloc: Global, count: u16) -> Result<Vec<u16>, AllocError>
    ensures { IfOk result (λ numbers. numbers.items ≡ range_with_len 0 count) }
{
    let mut numbers = Vec::new(alloc);
    for number in 0..count {
        numbers.push(number)?;
    }
    Ok(numbers)
}
