//! Trees: documents in memory.
use crate::number::Number;
use crate::text::Text;
use std::marker::Model;

/// A JSON document without fractions: a scalar, a list of trees, or a dict from keys to trees.
#[cycle(tree)]
#[derive(Drop)]
pub enum Tree {
    /// `null`.
    Null,
    /// `true` or `false`.
    Bool(bool),
    /// A whole number.
    Whole(Number),
    /// A text.
    Words(Text),
    /// A list.
    List(Trees),
    /// A dict.
    Dict(Fields),
}

/// The trees of a list, in order. Contracts see the list of their documents.
#[cycle(tree)]
#[derive(Drop)]
pub struct Trees {
    pub(crate) items: Vec<Tree>,
}

/// A key of a dict with its tree.
#[cycle(tree)]
#[derive(Drop)]
pub struct Field {
    /// The key.
    pub key: Text,
    /// The tree at the key.
    pub tree: Tree,
}

/// The fields of a dict: each key once, in the order of the keys' bytes. Contracts see the list of the keys, each
/// with its document.
#[cycle(tree)]
#[derive(Drop)]
pub struct Fields {
    pub(crate) entries: Vec<Field>,
}

impl Model for Trees {
    ghost use Rattle.std.specs.Prelude.{List, map};
    ghost use Rattle.std.specs.Coded.{coded_list};
    ghost use Rattle.doc_tree.specs.Doc.{Doc, docs_of, docs_depth};
    ghost use Rattle.doc_tree.specs.DocCode.{doc_code};
    ghost use Rattle.doc_tree.specs.Valid.{AreDocs};

    ghost Value = { List Doc };

    ghost coded = { coded_list doc_code };

    ghost use Rattle.doc_tree.specs.Tree.{doc_of};

    ghost view = { λ a. map doc_of a.items.items };

    ghost invariant = { λ a. AreDocs (docs_of (map doc_of a.items.items)) };

    ghost size = { λ ds. docs_depth (docs_of ds) };

    ghost use Rattle.std.proofs.Common.{arith};
    ghost use Rattle.doc_tree.specs.Falls.{most_le-docs_depth};

    ghost size_decreases = { λ a h. Prim.omega (arith, most_le-docs_depth a.items.items) };
}

impl Model for Fields {
    ghost use Rattle.std.specs.Prelude.{ℕ, List, map};
    ghost use Rattle.std.specs.Coded.{coded_ℕ, coded_list, coded×};
    ghost use Rattle.std.specs.Map.{keys_of};
    ghost use Rattle.doc_tree.specs.Doc.{Doc, pairs_of, pairs_depth};
    ghost use Rattle.doc_tree.specs.DocCode.{doc_code};
    ghost use Rattle.doc_tree.specs.Valid.{ArePairs, InOrder};

    ghost Value = { List (List ℕ × Doc) };

    ghost coded = { coded_list (coded× (coded_list coded_ℕ) doc_code) };

    ghost use Rattle.doc_tree.specs.Tree.{pair_of};

    ghost view = { λ a. map pair_of a.entries.items };

    ghost invariant = { λ a. ArePairs (pairs_of (map pair_of a.entries.items)) × InOrder (keys_of (map pair_of a.entries.items)) };

    ghost size = { λ ps. pairs_depth (pairs_of ps) };

    ghost use Rattle.std.proofs.Common.{arith};
    ghost use Rattle.doc_tree.specs.Falls.{most_le-pairs_depth};

    ghost size_decreases = { λ a h. Prim.omega (arith, most_le-pairs_depth a.entries.items) };
}

impl Tree {
    ghost use Rattle.doc_tree.specs.Part.{at};
    ghost use Rattle.doc_tree.specs.Text.{text_of};
    ghost use Rattle.doc_tree.specs.Tree.{doc_of};
    ghost use Rattle.doc_tree.specs.Valid.{IsDoc};
    ghost use Rattle.std.specs.Prelude.{◌≡◌, option_copied, option_map};

    /// Says what every tree keeps: its numbers are whole, its texts are UTF-8, and the keys of each of its dicts
    /// come once and in order. It does nothing.
    pub fn known(&self)
        ensures { IsDoc (doc_of self.now) }
    {
        match self {
            Tree::Null | Tree::Bool(_) => {}
            Tree::Whole(number) => {
                let _value = number.value();
            }
            Tree::Words(text) => {
                let _text = text.as_str();
            }
            Tree::List(trees) => {
                let _items = trees.as_slice();
            }
            Tree::Dict(fields) => {
                let _entries = fields.as_slice();
            }
        }
    }

    /// The text that the tree is, and `None` where it is anything else.
    pub fn text(&self) -> Option<&Text>
        ensures { option_copied result ≡ text_of (doc_of self.now) }
    {
        match self {
            Tree::Words(text) => Some(text),
            Tree::Null | Tree::Bool(_) | Tree::Whole(_) | Tree::List(_) | Tree::Dict(_) => None,
        }
    }

    /// The part at a path of keys, or `None` exactly where there is none. The empty path is the tree itself.
    pub fn at(&self, path: &[Text]) -> Option<&Tree>
        ensures { option_map (λ t. doc_of t.now) result ≡ at path.now (doc_of self.now) }
    {
        let mut here = self;
        for key in path {
            match here {
                Tree::Dict(fields) => match fields.get(key.as_str()) {
                    Some(part) => here = part,
                    None => return None,
                },
                _ => return None,
            }
        }
        Some(here)
    }
}
