//! A tree that contracts see as the document that it is.
ghost use Rattle.doc_tree.specs.Doc.{boolean, depth, dict, docs_depth, docs_of, list, null, pairs_depth, pairs_of, whole, words};
ghost use Rattle.doc_tree.specs.Tree.{doc_of};
ghost use Rattle.doc_tree.specs.Valid.{IsDoc};
ghost use Rattle.std.specs.Prelude.{◌≡◌, nat_lt};

use doc_tree::{Fields, Number, Text, Tree, Trees};
use std::marker::Model;

/// A tree: contracts see the document that it is.
#[derive(Drop)]
pub(crate) struct Document {
    tree: Tree,
}

impl Model for Document {
    ghost use Rattle.doc_tree.specs.Doc.{Doc};
    ghost use Rattle.doc_tree.specs.DocCode.{doc_code};

    ghost Value = { Doc };

    ghost coded = { doc_code };

    ghost use Rattle.doc_tree.specs.Tree.{doc_of};

    ghost view = { λ d. doc_of d.tree };
}

impl Document {
    /// A tree.
    pub(crate) fn of(tree: Tree) -> Document
        ensures { result ≡ doc_of tree }
    {
        Document { tree }
    }

    /// The null.
    pub(crate) fn null() -> Document
        ensures { result ≡ null }
    {
        Document { tree: Tree::Null }
    }

    /// A truth value.
    pub(crate) fn truth(value: bool) -> Document
        ensures { result ≡ boolean value }
    {
        Document {
            tree: Tree::Bool(value),
        }
    }

    /// A whole number.
    pub(crate) fn whole(number: Number) -> Document
        ensures { result ≡ whole number }
    {
        Document {
            tree: Tree::Whole(number),
        }
    }

    /// A text.
    pub(crate) fn words(text: Text) -> Document
        ensures { result ≡ words text }
    {
        Document {
            tree: Tree::Words(text),
        }
    }

    /// A list.
    pub(crate) fn list(trees: Trees) -> Document
        ensures { result ≡ list (docs_of trees) }
    {
        Document {
            tree: Tree::List(trees),
        }
    }

    /// A dict.
    pub(crate) fn dict(fields: Fields) -> Document
        ensures { result ≡ dict (pairs_of fields) }
    {
        Document {
            tree: Tree::Dict(fields),
        }
    }

    /// The tree, which is moved out.
    pub(crate) fn into_tree(self) -> Tree
        ensures tree { doc_of result ≡ self }
        ensures known { IsDoc self }
    {
        let Document { tree } = self;
        tree.known();
        tree
    }

    /// Whether lists and dicts nest more than this deep in it.
    pub(crate) fn is_deeper(&self, limit: usize) -> bool
        ensures { result ≡ nat_lt limit (depth self.now) }
    {
        is_deeper(&self.tree, limit)
    }
}

#[cycle(depth)]
fn is_deeper(tree: &Tree, limit: usize) -> bool
    ensures { result ≡ nat_lt limit (depth (doc_of tree.now)) }
{
    match tree {
        Tree::List(trees) => limit == 0 || has_deeper_tree(trees, limit - 1),
        Tree::Dict(fields) => limit == 0 || has_deeper_field(fields, limit - 1),
        _ => false,
    }
}

#[cycle(depth)]
fn has_deeper_tree(trees: &Trees, limit: usize) -> bool
    ensures { result ≡ nat_lt limit (docs_depth (docs_of trees.now)) }
{
    for tree in trees.as_slice() {
        if is_deeper(tree, limit) {
            return true;
        }
    }
    false
}

#[cycle(depth)]
fn has_deeper_field(fields: &Fields, limit: usize) -> bool
    ensures { result ≡ nat_lt limit (pairs_depth (pairs_of fields.now)) }
{
    for field in fields.as_slice() {
        if is_deeper(&field.tree, limit) {
            return true;
        }
    }
    false
}
