//! The documents of bodies, and the trees that their texts are compared with.
ghost use Rattle.compact_json.specs.Compact.{IsCompact, spelled};
ghost use Rattle.doc_tree.specs.Part.{part_at, with_pair};
ghost use Rattle.doc_tree.specs.Tree.{doc_of};
ghost use Rattle.doc_tree.specs.Written.{text};
ghost use Rattle.org_rows.specs.Bodies.{one_key};
ghost use Rattle.row_reading.specs.Bodies.{IsTextOf};
ghost use Rattle.std.specs.Prelude.{◌≡◌, IfOk, IsTrue, OnOk, Some, bytes_eq, option_map};

use crate::tokens::take_tree;
use doc_tree::{Fields, NoMemory, Text, Tree, json_text};
use json::{Reader, Scratch};
use std::alloc::Global;

/// The tree of the document of which a body is the compact text, however deep it nests. Of another body it is any tree, or
/// `None`: who asks compares the body with the text of what is stored.
pub(crate) fn tree_in(alloc: Global, body: &[u8]) -> Result<Option<Tree>, NoMemory>
    ensures { IfOk result (λ found. IsCompact body.now → option_map doc_of found ≡ Some (spelled body.now)) }
{
    match str::from_utf8(body) {
        Ok(text) => tree_of(alloc, text),
        Err(_) => Ok(None),
    }
}

fn tree_of(alloc: Global, text: &str) -> Result<Option<Tree>, NoMemory>
    ensures { IfOk result (λ found. IsCompact text.now → option_map doc_of found ≡ Some (spelled text.now)) }
{
    let mut scratch = Scratch::new(alloc);
    let mut reader = Reader::new(text, &mut scratch)?;
    let found = take_tree(alloc, &mut reader)?;
    if let Some(tree) = &found {
        // What every tree keeps makes it the one whose tokens were taken.
        tree.known();
    }
    Ok(found)
}

/// Whether a body is the compact text of a tree.
pub(crate) fn is_text_of(alloc: Global, body: &[u8], tree: &Tree) -> Result<bool, NoMemory>
    ensures same { IfOk result (λ same. same ≡ bytes_eq (text (doc_of tree.now)) body.now) }
    ensures compact { IfOk result (λ same. IsTrue same → IsTextOf (doc_of tree.now) body.now) }
{
    // What every tree keeps makes its text one that spells the same document.
    tree.known();
    let written = json_text(alloc, tree)?;
    Ok(written.as_slice() == body)
}

/// A dict of one key.
pub(crate) fn one_key(alloc: Global, key: &str, tree: Tree) -> Result<Tree, NoMemory>
    ensures { IfOk result (λ made. doc_of made ≡ one_key key.now (doc_of tree)) }
{
    let mut fields = Fields::new(alloc);
    put(alloc, &mut fields, key, tree).and(Ok(Tree::Dict(fields)))
}

/// Puts a tree at a key.
pub(crate) fn put(alloc: Global, fields: &mut Fields, key: &str, tree: Tree) -> Result<(), NoMemory>
    ensures { OnOk result (fields.new ≡ with_pair key.now (doc_of tree) fields.old) }
{
    fields.put(Text::from_str(alloc, key)?, tree)
}

/// What a tree has at a key: only a dict has anything.
pub(crate) fn part_at<'a>(tree: &'a Tree, key: &str) -> Option<&'a Tree>
    ensures { option_map (λ part. doc_of part.now) result ≡ part_at key.now (doc_of tree.now) }
{
    match tree {
        Tree::Dict(fields) => fields.get(key),
        Tree::Null | Tree::Bool(_) | Tree::Whole(_) | Tree::Words(_) | Tree::List(_) => None,
    }
}
