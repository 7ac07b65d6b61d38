//! The trees of a list.
ghost use Rattle.doc_tree.specs.Doc.{docs_of};
ghost use Rattle.doc_tree.specs.Tree.{doc_of};
ghost use Rattle.doc_tree.specs.Valid.{AreDocs};
ghost use Rattle.std.specs.Prelude.{◌≡◌, ◌↔◌, IfOk, IsTrue, OnOk, OnErr, [], ◌∷◌, ◌++◌, length, map};

use crate::no_memory::NoMemory;
use crate::tree::{Tree, Trees};
use std::alloc::Global;

impl Trees {
    /// The list of no trees, without memory.
    pub fn new(alloc: Global) -> Trees
        ensures { result ≡ [] }
    {
        Trees {
            items: Vec::new(alloc),
        }
    }

    /// The list of no trees, with room for exactly `count`.
    pub fn with_capacity(alloc: Global, count: usize) -> Result<Trees, NoMemory>
        ensures { IfOk result (λ trees. trees ≡ []) }
    {
        Ok(Trees {
            items: Vec::with_capacity(alloc, count)?,
        })
    }

    /// Adds a tree at the end.
    pub fn push(&mut self, tree: Tree) -> Result<(), NoMemory>
        ensures ok { OnOk result (self.new ≡ self.old ++ doc_of tree ∷ []) }
        ensures err { OnErr result (self.new ≡ self.old) }
    {
        // The list keeps what every tree keeps.
        tree.known();
        self.items.push(tree)?;
        Ok(())
    }

    /// The trees, in order, as a slice that borrows them.
    pub fn as_slice(&self) -> &[Tree]
        ensures value { map doc_of result.now ≡ self.now }
        ensures known { AreDocs (docs_of self.now) }
    {
        self.items.as_slice()
    }

    /// The trees, which are moved out.
    pub fn into_vec(self) -> Vec<Tree>
        ensures value { map doc_of result.items ≡ self }
        ensures known { AreDocs (docs_of self) }
    {
        let Trees { items } = self;
        items
    }

    /// How many trees it has.
    pub fn len(&self) -> usize
        ensures { result ≡ length self.now }
    {
        self.items.len()
    }

    /// Whether it has no trees.
    pub fn is_empty(&self) -> bool
        ensures { IsTrue result ↔ (self.now ≡ []) }
    {
        self.items.is_empty()
    }
}
