//! The paths that documents are.
ghost use Rattle.std.specs.Prelude.{◌≡◌, IfOk, option_copied};
ghost use Rattle.doc_tree.specs.Text.{text_of};
ghost use Rattle.doc_tree.specs.Tree.{doc_of};
ghost use Rattle.search_query.specs.Partial as spec;

use doc_tree::{NoMemory, Text, Texts, Tree, Trees};
use std::alloc::Global;

/// The path that a tree is: a list of texts. It is `None` exactly where the tree is no list, or an entry of it is no
/// text.
#[tactic(auto, using(doc_tree::proofs::Docs::back))]
pub(crate) fn path_of(alloc: Global, tree: &Tree) -> Result<Option<Texts>, NoMemory>
    ensures { IfOk result (λ path. path ≡ spec.path_of (doc_of tree.now)) }
{
    match tree {
        Tree::List(trees) => texts_of(alloc, trees),
        Tree::Null | Tree::Bool(_) | Tree::Whole(_) | Tree::Words(_) | Tree::Dict(_) => Ok(None),
    }
}

fn texts_of(alloc: Global, trees: &Trees) -> Result<Option<Texts>, NoMemory>
    ensures { IfOk result (λ texts. texts ≡ spec.each_of text_of trees.now) }
{
    let mut texts = Texts::new(alloc);
    for tree in trees.as_slice() {
        match tree.text() {
            Some(text) => texts.push(text.copy(alloc)?)?,
            None => return Ok(None),
        }
    }
    Ok(Some(texts))
}
