ghost use Rattle.std.specs.Prelude.{◌≡◌, ◌<◌, [], ◌∷◌, ◌++◌, length, slice_get, OnOk, OnErr, IfOk};
ghost use Rattle.cg_meaning.specs.Tree.{name_of};

use crate::dating::Dating;
use crate::name::Name;
use crate::view::View;
use cg_num::NoMemory;
use sqlite_items::Items;
use std::alloc::Global;

/// A statement of a model: an event with a dating, a Boundary, or a group of further statements.
#[cycle(node)]
#[derive(Drop)]
pub enum Node {
    /// An event with its dating.
    Leaf(Name, Dating),
    /// The beginning or the end of a span: an event without a dating.
    Boundary(Name),
    /// Members in order, the earliest first.
    Sequence(Name, Members),
    /// Members without an order.
    Phase(Name, Members),
    /// Members without an order. What follows the group isn't earlier than they are.
    After(Name, Members),
    /// Members without an order. What precedes the group isn't later than they are.
    Before(Name, Members),
}

/// The members of a group, or the top statements of a model, in the order of the text.
#[cycle(node)]
#[derive(Drop)]
pub struct Members {
    items: Items<Node>,
}

impl Members {
    ghost use Rattle.cg_meaning.specs.Tree.{none};
    ghost use Rattle.cg_model.specs.Node.{items_of, tree_of, trees_of, trees_with};

    /// No members. They take their memory from `alloc` as they grow.
    pub fn new(alloc: Global) -> Members
        ensures items { items_of result ≡ [] }
        ensures trees { trees_of result ≡ none }
    {
        Members {
            items: Items::new(alloc),
        }
    }

    /// Puts the node behind the others. Where it is refused for want of memory, it is dropped and they are as before.
    pub fn push(&mut self, node: Node) -> Result<(), NoMemory>
        ensures items { OnOk result (items_of self.new ≡ items_of self.old ++ node ∷ []) }
        ensures trees { OnOk result (trees_of self.new ≡ trees_with (trees_of self.old) (tree_of node)) }
        ensures err { OnErr result (items_of self.new ≡ items_of self.old) }
    {
        self.items.push(node)?;
        Ok(())
    }

    /// How many there are, not counting what stands inside them.
    pub fn len(&self) -> usize
        ensures { result ≡ length (items_of self.now) }
    {
        self.items.len()
    }

    /// The member at a place, counted from 0.
    pub fn get(&self, place: usize) -> &Node
        requires { place < length (items_of self.now) }
        ensures { slice_get (items_of self.now) place ≡ Some result.now }
    {
        &self.items.as_slice()[place]
    }

    /// The members, one after another. Takes no memory.
    pub fn nodes(&self) -> &[Node]
        ensures { result.now ≡ items_of self.now }
    {
        self.items.as_slice()
    }

    /// Equal members.
    #[cycle(copies)]
    pub fn copy(&self, alloc: Global) -> Result<Members, NoMemory>
        ensures { IfOk result (λ members. members ≡ self.now) }
    {
        let mut items = Items::new(alloc);
        for node in self.items.as_slice() {
            items.push(node.copy(alloc)?)?;
        }
        Ok(Members { items })
    }
}

impl Node {
    ghost use Rattle.cg_model.specs.Event.{is_event};
    ghost use Rattle.cg_model.specs.Node.{tree_of};

    /// The name of the node. Takes no memory.
    pub fn name(&self) -> &Name
        ensures { result.now ≡ name_of (tree_of self.now) }
    {
        match self.view() {
            View::Leaf(name, _) | View::Boundary(name) | View::Group(_, name, _) => name,
        }
    }

    pub(crate) fn is_event(&self) -> bool
        ensures { result ≡ is_event (tree_of self.now) }
    {
        matches!(self, Node::Leaf(_, _) | Node::Boundary(_))
    }

    /// An equal node.
    #[cycle(copies)]
    pub fn copy(&self, alloc: Global) -> Result<Node, NoMemory>
        ensures { IfOk result (λ node. node ≡ self.now) }
    {
        match self.view() {
            View::Leaf(name, dating) => Ok(Node::Leaf(name.copy(alloc)?, *dating)),
            View::Boundary(name) => Ok(Node::Boundary(name.copy(alloc)?)),
            View::Group(kind, name, members) => {
                Ok(kind.node(name.copy(alloc)?, members.copy(alloc)?))
            }
        }
    }
}
