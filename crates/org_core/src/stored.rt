//! An object as it is stored.

ghost use Rattle.std.specs.Prelude.{◌≡◌, IfOk, option_map};
ghost use Rattle.doc_tree.specs.Tree.{doc_of};
ghost use Rattle.org_core.specs.Named as spec;

use compact_json::CompactJson;
use doc_tree::{NoMemory, Tree};
use std::alloc::Global;
use std::marker::Model;

/// An object as it is stored: its text, which is made once for the state and the reply, beside the tree that it was made
/// of, by which its parts are read. Contracts see its document.
#[derive(Drop)]
pub struct Stored {
    tree: Tree,
    text: CompactJson,
}

impl Model for Stored {
    ghost use Rattle.org_core.specs.Stored.{Doc, doc_code};

    ghost Value = { Doc };

    ghost coded = { doc_code };

    ghost use Rattle.std.specs.Prelude.{◌≡◌};
    ghost use Rattle.doc_tree.specs.Tree.{doc_of};

    ghost view = { λ s. s.text };

    ghost invariant = { λ s. doc_of s.tree ≡ s.text };
}

impl Stored {
    /// The object that a tree is, which is moved. `NoMemory` where there is none for its text.
    pub fn of(alloc: Global, tree: Tree) -> Result<Stored, NoMemory>
        ensures { IfOk result (λ stored. stored ≡ doc_of tree) }
    {
        match CompactJson::of(alloc, &tree) {
            Ok(text) => Ok(Stored { tree, text }),
            Err(fault) => {
                drop(tree);
                Err(fault)
            }
        }
    }

    /// Its tree.
    pub fn tree(&self) -> &Tree
        ensures { doc_of result.now ≡ self.now }
    {
        &self.tree
    }

    /// Its text.
    pub fn text(&self) -> &CompactJson
        ensures { result.now ≡ self.now }
    {
        &self.text
    }

    /// Its text, which is moved out.
    pub fn into_text(self) -> CompactJson
        ensures { result ≡ self }
    {
        let Stored { tree, text } = self;
        drop(tree);
        text
    }
}

/// The name that an object has as its field of this key.
pub fn named_by<'a>(field: &str, object: &'a Tree) -> &'a str
    ensures { result.now ≡ spec.named_by field.now (doc_of object.now) }
{
    match object {
        Tree::Dict(fields) => text_of(fields.get(field)),
        Tree::Null | Tree::Bool(_) | Tree::Whole(_) | Tree::Words(_) | Tree::List(_) => "",
    }
}

fn text_of(tree: Option<&Tree>) -> &str
    ensures { result.now ≡ spec.text_of (option_map (λ t. doc_of t.now) tree.entry) }
{
    match tree {
        Some(Tree::Words(text)) => text.as_str(),
        _ => "",
    }
}
