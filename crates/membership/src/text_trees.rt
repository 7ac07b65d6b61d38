//! Sets of texts that are read from trees, and the trees of texts.
ghost use Rattle.std.specs.Prelude.{◌≡◌, ℕ, List, ◌++◌, IfOk, OnOk, option_map};
ghost use Rattle.doc_tree.specs.Doc.{docs_of, list};
ghost use Rattle.doc_tree.specs.Tree.{doc_of};
ghost use Rattle.membership.specs.TextSets.{in_order};
ghost use Rattle.membership.specs.TextTrees as spec;

use crate::text_set::TextSet;
use doc_tree::{NoMemory, Text, Tree, Trees};
use std::alloc::Global;

impl TextSet {
    /// The texts of a list of nothing but texts, or `None` exactly where the tree is another.
    pub fn read(alloc: Global, tree: &Tree) -> Result<Option<TextSet>, NoMemory>
        ensures { IfOk result (λ texts. texts ≡ option_map in_order (spec.texts_in (doc_of tree.now))) }
    {
        match texts_in(tree) {
            Some(trees) => Ok(Some(texts_among(alloc, trees)?)),
            None => Ok(None),
        }
    }

    /// The list of these texts.
    pub fn tree(&self, alloc: Global) -> Result<Tree, NoMemory>
        ensures { IfOk result (λ tree. doc_of tree ≡ spec.texts_doc self.now) }
    {
        texts_tree(alloc, self.as_slice())
    }
}

/// The trees of a list of nothing but texts, or `None` exactly where the tree is another. It takes no
/// memory.
pub fn texts_in(tree: &Tree) -> Option<&Trees>
    ensures { option_map (λ trees. spec.texts_among (docs_of trees.now)) result ≡ spec.texts_in (doc_of tree.now) }
{
    match tree {
        Tree::List(trees) => texts_of(trees),
        Tree::Null | Tree::Bool(_) | Tree::Whole(_) | Tree::Words(_) | Tree::Dict(_) => None,
    }
}

fn texts_of(trees: &Trees) -> Option<&Trees>
    ensures { option_map (λ trees. spec.texts_among (docs_of trees.now)) result ≡ spec.texts_in (list (docs_of trees.now)) }
{
    if are_texts(trees) { Some(trees) } else { None }
}

fn are_texts(trees: &Trees) -> bool
    ensures { result ≡ spec.are_texts (docs_of trees.now) }
{
    for tree in trees.as_slice() {
        if !is_text(tree) {
            return false;
        }
    }
    true
}

fn is_text(tree: &Tree) -> bool
    ensures { result ≡ spec.is_text (doc_of tree.now) }
{
    matches!(tree, Tree::Words(_))
}

/// The texts among these trees, in order.
pub fn texts_among(alloc: Global, trees: &Trees) -> Result<TextSet, NoMemory>
    ensures { IfOk result (λ texts. texts ≡ in_order (spec.texts_among (docs_of trees.now))) }
{
    let mut texts = Vec::with_capacity(alloc, trees.len())?;
    for tree in trees.as_slice() {
        push_text(alloc, &mut texts, tree)?;
    }
    Ok(TextSet::of(texts))
}

fn push_text(alloc: Global, texts: &mut Vec<Text>, tree: &Tree) -> Result<(), NoMemory>
    ensures { OnOk result ((rest : List (List ℕ)) → texts.new.items ++ rest ≡ texts.old.items ++ spec.text_before (doc_of tree.now) rest) }
{
    if let Tree::Words(text) = tree {
        texts.push(text.copy(alloc)?)?;
    }
    Ok(())
}

/// The list of these texts.
pub fn texts_tree(alloc: Global, texts: &[Text]) -> Result<Tree, NoMemory>
    ensures { IfOk result (λ tree. doc_of tree ≡ spec.texts_doc texts.now) }
{
    let mut trees = Trees::with_capacity(alloc, texts.len())?;
    for text in texts {
        trees.push(Tree::Words(text.copy(alloc)?))?;
    }
    Ok(Tree::List(trees))
}
