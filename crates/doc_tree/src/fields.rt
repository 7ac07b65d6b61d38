//! The fields of a dict.
ghost use Rattle.doc_tree.specs.Doc.{pairs_of};
ghost use Rattle.doc_tree.specs.Part.{pair_at, with_pair};
ghost use Rattle.doc_tree.specs.Place.{IsPlace, replaced};
ghost use Rattle.doc_tree.specs.Tree.{doc_of, pair_of};
ghost use Rattle.doc_tree.specs.Valid.{ArePairs, InOrder};
ghost use Rattle.std.specs.Map.{keys_of};
ghost use Rattle.std.specs.Prelude.{◌≡◌, ◌<◌, ◌≤◌, ◌↔◌, IfOk, IsTrue, OnOk, OnErr, [], ◌∷◌, ◌++◌, insert, length, map, option_map};

use crate::no_memory::NoMemory;
use crate::text::Text;
use crate::tree::{Field, Fields, Tree};
use std::alloc::Global;
use std::cmp::Ordering;

/// Where a key stands in a dict, or would stand.
#[derive(Clone, Copy, Drop)]
enum Place {
    Held(usize),
    Gap(usize),
}

impl Fields {
    /// The dict of no fields, without memory.
    pub fn new(alloc: Global) -> Fields
        ensures { result ≡ [] }
    {
        Fields {
            entries: Vec::new(alloc),
        }
    }

    /// The dict of no fields, with room for exactly `count`.
    pub fn with_capacity(alloc: Global, count: usize) -> Result<Fields, NoMemory>
        ensures { IfOk result (λ fields. fields ≡ []) }
    {
        Ok(Fields {
            entries: Vec::with_capacity(alloc, count)?,
        })
    }

    /// The tree at a key, or `None` exactly where the dict has no such key. It takes as
    /// many comparisons of keys as the number of fields has binary digits, at most, and no memory.
    pub fn get(&self, key: &str) -> Option<&Tree>
        ensures { option_map (λ t. doc_of t.now) result ≡ pair_at key.now (pairs_of self.now) }
    {
        match self.place_of(key) {
            Place::Held(index) => Some(&self.entries[index].tree),
            Place::Gap(_) => None,
        }
    }

    /// Puts a tree at a key: an equal key takes it, and a new one goes to its place in the order.
    pub fn put(&mut self, key: Text, tree: Tree) -> Result<(), NoMemory>
        ensures ok { OnOk result (self.new ≡ with_pair key (doc_of tree) self.old) }
        ensures err { OnErr result (self.new ≡ self.old) }
    {
        match self.place_of(key.as_str()) {
            Place::Held(index) => {
                self.replace(index, tree);
                Ok(())
            }
            Place::Gap(index) => self.insert(index, key, tree),
        }
    }

    fn place_of(&self, key: &str) -> Place
        ensures place { IsPlace key.now self.now result }
        ensures order { InOrder (keys_of self.now) }
    {
        let mut low = 0;
        let mut high = self.entries.len();
        while low < high {
            let middle = low + (high - low) / 2;
            match key.cmp(self.entries[middle].key.as_str()) {
                Ordering::Less => high = middle,
                Ordering::Equal => return Place::Held(middle),
                Ordering::Greater => low = middle + 1,
            }
        }
        Place::Gap(low)
    }

    fn replace(&mut self, index: usize, tree: Tree)
        requires { index < length self.old }
        ensures { self.new ≡ replaced index (doc_of tree) self.old }
    {
        // The dict keeps what every tree keeps.
        tree.known();
        self.entries[index].tree = tree;
    }

    fn insert(&mut self, index: usize, key: Text, tree: Tree) -> Result<(), NoMemory>
        requires place { index ≤ length self.old }
        requires order { InOrder (keys_of (insert self.old index (key, doc_of tree))) }
        ensures ok { OnOk result (self.new ≡ insert self.old index (key, doc_of tree)) }
        ensures err { OnErr result (self.new ≡ self.old) }
    {
        // The dict keeps that its keys are UTF-8, and what every tree keeps.
        let _text = key.as_str();
        tree.known();
        self.entries.insert(index, Field { key, tree })?;
        Ok(())
    }

    /// Adds a field at the end, whose key is above those of the others.
    pub fn push(&mut self, key: Text, tree: Tree) -> Result<(), NoMemory>
        requires { InOrder (keys_of self.old ++ key ∷ []) }
        ensures ok { OnOk result (self.new ≡ self.old ++ (key, doc_of tree) ∷ []) }
        ensures err { OnErr result (self.new ≡ self.old) }
    {
        // The dict keeps that its keys are UTF-8, and what every tree keeps.
        let _text = key.as_str();
        tree.known();
        self.entries.push(Field { key, tree })?;
        Ok(())
    }

    /// The fields, in the order of their keys, as a slice that borrows them.
    pub fn as_slice(&self) -> &[Field]
        ensures value { map pair_of result.now ≡ self.now }
        ensures known { ArePairs (pairs_of self.now) }
        ensures order { InOrder (keys_of self.now) }
    {
        self.entries.as_slice()
    }

    /// The fields, which are moved out.
    pub fn into_vec(self) -> Vec<Field>
        ensures value { map pair_of result.items ≡ self }
        ensures known { ArePairs (pairs_of self) }
        ensures order { InOrder (keys_of self) }
    {
        let Fields { entries } = self;
        entries
    }

    /// How many fields it has.
    pub fn len(&self) -> usize
        ensures { result ≡ length self.now }
    {
        self.entries.len()
    }

    /// Whether it has no fields.
    pub fn is_empty(&self) -> bool
        ensures { IsTrue result ↔ (self.now ≡ []) }
    {
        self.entries.is_empty()
    }
}
