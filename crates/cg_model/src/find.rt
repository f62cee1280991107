ghost use Rattle.std.specs.Prelude.{◌≡◌, ◌≢◌, ℕ, ◌<◌, List, [], ◌∷◌, ◌++◌, length, slice_get, option_map};
ghost use Rattle.cg_meaning.specs.Tree.{name_of, nodes_of_all};

use crate::model::ModelTree;
use crate::name::Name;

/// What a search for a name finds. Nodes are numbered from 0 in the order of the text.
#[derive(Clone, Copy, Debug, PartialEq, Eq)]
pub enum Found {
    /// No node has the name.
    Nobody,
    /// One node has it: its place.
    One(u32),
    /// Several nodes have it: how many.
    Many(u32),
}

impl Found {
    ghost use Rattle.cg_model.specs.Found.{found_at};

    // what is found once a later node, at this place, has the name too
    fn with(self, place: u32) -> Found
        requires { (count : _) → self ≡ Found.Many count → count < u32.MAX }
        ensures { (places : List ℕ) → self ≡ found_at places → result ≡ found_at (places ++ place ∷ []) }
    {
        match self {
            Found::Nobody => Found::One(place),
            Found::One(_) => Found::Many(2),
            Found::Many(count) => Found::Many(count + 1),
        }
    }
}

impl ModelTree {
    ghost use Rattle.cg_model.specs.Found.{found_in};

    /// Whether one node, several or none have a name that isn't empty, groups and Boundaries included. Takes no memory.
    pub fn find(&self, name: &Name) -> Found
        requires { name.now ≢ [] }
        ensures found { result ≡ found_in name.now (nodes_of_all self.now.top) }
        ensures one { (place : _) → result ≡ Found.One place
            → option_map name_of (slice_get (nodes_of_all self.now.top) place) ≡ Some name.now }
        ensures within { (place : _) → result ≡ Found.One place → place < length (nodes_of_all self.now.top) }
    {
        let mut found = Found::Nobody;
        for place in 0..self.size() {
            if self.node(place).name().text() == name.text() {
                found = found.with(place);
            }
        }
        found
    }
}
