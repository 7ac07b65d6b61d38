//! The merged attributes.
ghost use Rattle.attr_merge.specs.Merged.{origin_at, path_cmp};
ghost use Rattle.attr_merge.specs.Nodes.{entries_of, leaves_of};
ghost use Rattle.doc_tree.specs.Doc.{dict, pairs_of};
ghost use Rattle.doc_tree.specs.Part.{at};
ghost use Rattle.doc_tree.specs.Tree.{doc_of};
ghost use Rattle.std.specs.List.Sorted.{IsStrictlySortedBy};
ghost use Rattle.std.specs.Prelude.{◌≡◌, ℕ, List, IfOk, map, option_map};

use crate::nodes::{Inner, Leaf};
use doc_tree::{Listed, NoMemory, Text, Texts, Tree};
use std::alloc::Global;
use std::collections::BTreeMap;
use std::marker::Model;

/// The paths of leaves: contracts see a list of lists of keys.
pub type Leaves = Listed<Texts>;

/// Merged attributes. Contracts see the document that they are, and the paths of its leaves in order, each with the
/// positions of the layers that the leaf comes from.
#[derive(Drop)]
pub struct Merged {
    tree: Tree,
    leaves: BTreeMap<Vec<Text>, Vec<usize>>,
}

impl Model for Merged {
    ghost use Rattle.attr_merge.specs.Merged.{Effective, effective_code};

    ghost Value = { Effective };

    ghost coded = { effective_code };

    ghost use Rattle.attr_merge.specs.Nodes.{entries_of};
    ghost use Rattle.doc_tree.specs.Tree.{doc_of};

    ghost view = { λ m. record { document = doc_of m.tree; leaves = entries_of m.leaves.entries } };
}

impl Merged {
    /// The value at a path, without memory: at a leaf the leaf's value, at the root and at a path above a leaf the dict
    /// of the leaves below, and at every other path `None`.
    pub fn value(&self, path: &[Text]) -> Option<&Tree>
        ensures { option_map (λ tree. doc_of tree.now) result ≡ at path.now self.now.document }
    {
        self.tree.at(path)
    }

    /// The origin of the leaf at a path, without memory: the positions of the layers that it comes from, rising, the
    /// first layer's being 0. `None` exactly where no leaf is.
    pub fn origin(&self, path: &[Text]) -> Option<&[usize]>
        ensures { option_map (λ positions. positions.now) result ≡ origin_at path.now self.now.leaves }
    {
        match self.leaves.get(path) {
            Some(positions) => Some(positions.as_slice()),
            None => None,
        }
    }

    /// The paths of the leaves, each once, in the order of their keys: paths compare key by key, and keys byte by byte.
    pub fn leaves(&self, alloc: Global) -> Result<Leaves, NoMemory>
        ensures paths { IfOk result (λ paths. paths ≡ map (λ leaf. leaf.0) self.now.leaves) }
        ensures order { IfOk result (IsStrictlySortedBy path_cmp) }
    {
        let mut paths = Vec::with_capacity(alloc, self.leaves.len())?;
        for path in self.leaves.keys() {
            paths.push(copy_path(alloc, path)?)?;
        }
        Ok(Listed::of(paths))
    }

    /// A dict with its leaves.
    pub(crate) fn of(alloc: Global, inner: Inner) -> Result<Merged, NoMemory>
        ensures document { IfOk result (λ merged. merged.document ≡ dict (pairs_of inner.fields)) }
        ensures leaves { IfOk result (λ merged. (path : List (List ℕ)) → origin_at path merged.leaves ≡ origin_at path (leaves_of inner.leaves.items)) }
    {
        let Inner { fields, leaves } = inner;
        let leaves = in_order(alloc, leaves)?;
        Ok(Merged {
            tree: Tree::Dict(fields),
            leaves,
        })
    }
}

fn copy_path(alloc: Global, path: &[Text]) -> Result<Texts, NoMemory>
    ensures { IfOk result (λ copy. copy ≡ path.now) }
{
    let mut keys = Vec::with_capacity(alloc, path.len())?;
    for key in path {
        keys.push(key.copy(alloc)?)?;
    }
    Ok(Listed::of(keys))
}

// The leaves in a map; of two with one path the first counts.
fn in_order(alloc: Global, leaves: Vec<Leaf>) -> Result<BTreeMap<Vec<Text>, Vec<usize>>, NoMemory>
    ensures { IfOk result (λ found. (path : List (List ℕ)) → origin_at path (entries_of found.entries) ≡ origin_at path (leaves_of leaves.items)) }
{
    let mut left = leaves;
    let mut found = BTreeMap::new(alloc);
    while let Some(leaf) = left.pop() {
        let Leaf { path, origin } = leaf;
        found.insert(without_room(path), origin)?;
    }
    Ok(found)
}

// A path without room for more keys: many paths are kept for long. It takes no memory.
fn without_room(path: Vec<Text>) -> Vec<Text>
    ensures { result.items ≡ path.items }
{
    let mut path = path;
    path.shrink_to_fit();
    path
}
