//! Fields that are put into a Dict.
ghost use Rattle.std.specs.Prelude.{◌≡◌, OnOk};
ghost use Rattle.doc_tree.specs.Doc.{words};
ghost use Rattle.doc_tree.specs.Part.{with_pair};
ghost use Rattle.doc_tree.specs.Tree.{doc_of};

use doc_tree::{Fields, NoMemory, Text, Tree};
use std::alloc::Global;

/// Puts a tree at a key.
pub(crate) fn put_tree(
    alloc: Global,
    made: &mut Fields,
    key: &str,
    tree: Tree,
) -> Result<(), NoMemory>
    ensures { OnOk result (made.new ≡ with_pair key.now (doc_of tree) made.old) }
{
    made.put(Text::from_str(alloc, key)?, tree)
}

/// Puts a text at a key.
pub(crate) fn put_text(
    alloc: Global,
    made: &mut Fields,
    key: &str,
    text: &str,
) -> Result<(), NoMemory>
    ensures { OnOk result (made.new ≡ with_pair key.now (words text.now) made.old) }
{
    put_tree(alloc, made, key, Tree::Words(Text::from_str(alloc, text)?))
}
