//! How the trees of replies are built.

ghost use Rattle.std.specs.Prelude.{◌≡◌, [], IfOk, OnOk};
ghost use Rattle.doc_tree.specs.Doc.{dict, pairs_of};
ghost use Rattle.doc_tree.specs.Part.{with_pair};
ghost use Rattle.doc_tree.specs.Tree.{doc_of};

use doc_tree::{Fields, NoMemory, Text, Tree};
use std::alloc::Global;

/// Puts a tree under a key, in its place in the order of keys.
pub(crate) fn put(alloc: Global, fields: &mut Fields, key: &str, tree: Tree) -> Result<(), NoMemory>
    ensures { OnOk result (fields.new ≡ with_pair key.now (doc_of tree) fields.old) }
{
    fields.put(Text::from_str(alloc, key)?, tree)
}

/// A dict of two keys.
pub(crate) fn two(
    alloc: Global,
    first_key: &str,
    first: Tree,
    second_key: &str,
    second: Tree,
) -> Result<Tree, NoMemory>
    ensures { IfOk result (λ tree. doc_of tree ≡ dict (pairs_of (with_pair second_key.now (doc_of second) (with_pair first_key.now (doc_of first) [])))) }
{
    let mut fields = Fields::new(alloc);
    put_two(alloc, &mut fields, first_key, first, second_key, second).and(Ok(Tree::Dict(fields)))
}

// Puts a tree under a key, and then another under another.
fn put_two(
    alloc: Global,
    fields: &mut Fields,
    first_key: &str,
    first: Tree,
    second_key: &str,
    second: Tree,
) -> Result<(), NoMemory>
    ensures { OnOk result (fields.new ≡ with_pair second_key.now (doc_of second) (with_pair first_key.now (doc_of first) fields.old)) }
{
    match put(alloc, fields, first_key, first) {
        Ok(()) => put(alloc, fields, second_key, second),
        Err(fault) => {
            drop(second);
            Err(fault)
        }
    }
}
