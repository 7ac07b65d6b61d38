//! How the trees of replies are built.

ghost use Rattle.std.specs.Prelude.{◌≡◌, OnOk};
ghost use Rattle.doc_tree.specs.Part.{with_pair};
ghost use Rattle.doc_tree.specs.Tree.{doc_of};

use doc_tree::{Fields, NoMemory, Text, Tree};
use std::alloc::Global;

/// Puts a tree under a key, in its place in the order of keys.
pub(crate) fn put(alloc: Global, fields: &mut Fields, key: &str, tree: Tree) -> Result<(), NoMemory>
    ensures { OnOk result (fields.new ≡ with_pair key.now (doc_of tree) fields.old) }
{
    match Text::from_str(alloc, key) {
        Ok(key) => fields.put(key, tree),
        Err(fault) => {
            drop(tree);
            Err(fault)
        }
    }
}
