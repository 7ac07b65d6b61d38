//! What is merged so far.
ghost use Rattle.attr_merge.specs.Nodes.{leaf_of, leaves_of, below_key};
ghost use Rattle.doc_tree.specs.Part.{with_pair};
ghost use Rattle.doc_tree.specs.Tree.{doc_of};
ghost use Rattle.std.specs.Prelude.{◌≡◌, ◌∷◌, ◌++◌, [], IfOk, OnOk};

use doc_tree::{Fields, NoMemory, Text, Tree};
use std::alloc::Global;

/// A leaf: its path from where it was found, and the positions of the layers that it comes from.
#[derive(Drop)]
pub(crate) struct Leaf {
    pub(crate) path: Vec<Text>,
    pub(crate) origin: Vec<usize>,
}

/// A tree with its leaves.
#[derive(Drop)]
pub(crate) struct Node {
    pub(crate) tree: Tree,
    pub(crate) leaves: Vec<Leaf>,
}

/// The fields of a dict with the leaves below them.
#[derive(Drop)]
pub(crate) struct Inner {
    pub(crate) fields: Fields,
    pub(crate) leaves: Vec<Leaf>,
}

impl Node {
    /// A tree that is one leaf.
    pub(crate) fn leaf(alloc: Global, tree: Tree, origin: Vec<usize>) -> Result<Node, NoMemory>
        ensures { IfOk result (λ node. (node.tree ≡ tree) × (leaves_of node.leaves.items ≡ ([], origin.items) ∷ [])) }
    {
        let mut leaves = Vec::with_capacity(alloc, 1)?;
        leaves.push(Leaf {
            path: Vec::new(alloc),
            origin,
        })?;
        Ok(Node { tree, leaves })
    }
}

impl Inner {
    /// No fields, and room for so many.
    pub(crate) fn with_room(alloc: Global, count: usize) -> Result<Inner, NoMemory>
        ensures { IfOk result (λ inner. (inner.fields ≡ []) × (inner.leaves.items ≡ [])) }
    {
        Ok(Inner {
            fields: Fields::with_capacity(alloc, count)?,
            leaves: Vec::new(alloc),
        })
    }

    /// These fields and one more, with the leaves below it.
    pub(crate) fn with(self, alloc: Global, key: Text, node: Node) -> Result<Inner, NoMemory>
        ensures fields { IfOk result (λ inner. inner.fields ≡ with_pair key (doc_of node.tree) self.fields) }
        ensures leaves { IfOk result (λ inner. leaves_of inner.leaves.items ≡ leaves_of self.leaves.items ++ below_key key (leaves_of node.leaves.items)) }
    {
        let Inner {
            mut fields,
            mut leaves,
        } = self;
        let Node {
            tree,
            leaves: below,
        } = node;
        add_leaves(alloc, &mut leaves, &key, below)?;
        fields.put(key, tree)?;
        Ok(Inner { fields, leaves })
    }
}

// Adds the leaves below a key.
fn add_leaves(
    alloc: Global,
    leaves: &mut Vec<Leaf>,
    key: &Text,
    below: Vec<Leaf>,
) -> Result<(), NoMemory>
    ensures { OnOk result (leaves_of leaves.new.items ≡ leaves_of leaves.old.items ++ below_key key.now (leaves_of below.items)) }
{
    for leaf in below {
        leaves.push(under(alloc, key, leaf)?)?;
    }
    Ok(())
}

// The leaf with one more key before its path.
fn under(alloc: Global, key: &Text, leaf: Leaf) -> Result<Leaf, NoMemory>
    ensures { IfOk result (λ found. leaf_of found ≡ (key.now ∷ leaf.path.items, leaf.origin.items)) }
{
    let Leaf { mut path, origin } = leaf;
    path.insert(0, key.copy(alloc)?)?;
    Ok(Leaf { path, origin })
}
