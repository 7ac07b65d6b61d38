//! Whether trees are equal.
ghost use Rattle.std.specs.Prelude.{◌≡◌, ◌↔◌, IsTrue};

use crate::tree::{Field, Fields, Tree, Trees};

impl Tree {
    /// Whether two trees are equal, without memory.
    #[cycle(same)]
    pub fn same(&self, other: &Tree) -> bool
        ensures { IsTrue result ↔ (self.now ≡ other.now) }
    {
        match (self, other) {
            (Tree::Null, Tree::Null) => true,
            (Tree::Bool(one), Tree::Bool(two)) => one == two,
            (Tree::Whole(one), Tree::Whole(two)) => one == two,
            (Tree::Words(one), Tree::Words(two)) => one == two,
            (Tree::List(one), Tree::List(two)) => one.same(two),
            (Tree::Dict(one), Tree::Dict(two)) => one.same(two),
            _ => false,
        }
    }
}

impl Trees {
    /// Whether two lists are equal, without memory.
    #[cycle(same)]
    pub fn same(&self, other: &Trees) -> bool
        ensures { IsTrue result ↔ (self.now ≡ other.now) }
    {
        if self.items.len() != other.items.len() {
            return false;
        }
        for index in 0..self.items.len() {
            if !self.items[index].same(&other.items[index]) {
                return false;
            }
        }
        true
    }
}

impl Field {
    /// Whether two fields have one key and equal trees, without memory.
    #[cycle(same)]
    pub fn same(&self, other: &Field) -> bool
        ensures { IsTrue result ↔ (self.now ≡ other.now) }
    {
        self.key == other.key && self.tree.same(&other.tree)
    }
}

impl Fields {
    /// Whether two dicts are equal, without memory.
    #[cycle(same)]
    pub fn same(&self, other: &Fields) -> bool
        ensures { IsTrue result ↔ (self.now ≡ other.now) }
    {
        if self.entries.len() != other.entries.len() {
            return false;
        }
        for index in 0..self.entries.len() {
            if !self.entries[index].same(&other.entries[index]) {
                return false;
            }
        }
        true
    }
}
