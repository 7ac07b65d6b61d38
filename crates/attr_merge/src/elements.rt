//! Elements of arrays that are joined.
ghost use Rattle.attr_merge.specs.Elements.{with_element, with_elements};
ghost use Rattle.attr_merge.specs.Families.{elements};
ghost use Rattle.doc_tree.specs.Tree.{doc_of};
ghost use Rattle.doc_tree.specs.Written.{text};
ghost use Rattle.std.specs.BTreeSet.{contains};
ghost use Rattle.std.specs.Cmp.Lexicographic.{slice_cmp};
ghost use Rattle.std.specs.Ordering.{nat_cmp};
ghost use Rattle.std.specs.Prelude.{◌≡◌, ◌||◌, [], ℕ, List, IfOk, OnOk, bytes_eq, not};

use doc_tree::{NoMemory, Text, Tree, Trees, json_text};
use std::alloc::Global;
use std::collections::BTreeSet;
use std::marker::Model;

/// The elements so far, with the set of their compact texts, so that an element that stands before is found without
/// going over them. Contracts see the list of the elements.
#[derive(Drop)]
pub(crate) struct Elements {
    trees: Trees,
    texts: BTreeSet<Text>,
}

impl Model for Elements {
    ghost use Rattle.std.specs.Prelude.{List};
    ghost use Rattle.std.specs.Coded.{coded_list};
    ghost use Rattle.doc_tree.specs.Doc.{Doc};
    ghost use Rattle.doc_tree.specs.DocCode.{doc_code};

    ghost Value = { List Doc };

    ghost coded = { coded_list doc_code };

    ghost use Rattle.attr_merge.specs.Texts.{HasTextsOf};

    ghost view = { λ e. e.trees };

    ghost invariant = { λ e. HasTextsOf e.trees e.texts };
}

impl Elements {
    /// No elements.
    pub(crate) fn none(alloc: Global) -> Elements
        ensures { result ≡ [] }
    {
        Elements {
            trees: Trees::new(alloc),
            texts: BTreeSet::new(alloc),
        }
    }

    /// These elements and one more behind them, unless one of them is the same.
    pub(crate) fn with(self, alloc: Global, tree: &Tree) -> Result<Elements, NoMemory>
        ensures { IfOk result (λ e. e ≡ with_element self (doc_of tree.now)) }
    {
        let Elements {
            mut trees,
            mut texts,
        } = self;
        if add(&mut texts, text_of(alloc, tree)?)? {
            trees.push(tree.copy(alloc)?)?;
        }
        Ok(Elements { trees, texts })
    }

    // These elements and more behind them, one by one.
    fn with_all(self, alloc: Global, more: &Trees) -> Result<Elements, NoMemory>
        ensures { IfOk result (λ e. e ≡ with_elements self more.now) }
    {
        let mut elements = self;
        for tree in more.as_slice() {
            elements = elements.with(alloc, tree)?;
        }
        Ok(elements)
    }

    /// These elements and those of an array behind them, one by one.
    #[tactic(auto, using(doc_tree::proofs::Docs::back))]
    pub(crate) fn with_array(self, alloc: Global, array: &Tree) -> Result<Elements, NoMemory>
        ensures { IfOk result (λ e. e ≡ with_elements self (elements (doc_of array.now))) }
    {
        match array {
            Tree::List(trees) => self.with_all(alloc, trees),
            _ => Ok(self),
        }
    }

    /// The elements, as a list.
    pub(crate) fn into_trees(self) -> Trees
        ensures { result ≡ self }
    {
        let Elements { trees, .. } = self;
        trees
    }
}

/// The compact text of a tree, as a text.
fn text_of(alloc: Global, tree: &Tree) -> Result<Text, NoMemory>
    ensures { IfOk result (λ t. t ≡ text (doc_of tree.now)) }
{
    let bytes = json_text(alloc, tree)?;
    match str::from_utf8(bytes.as_slice()) {
        Ok(text) => Text::from_str(alloc, text),
        Err(_) => unreachable!(),
    }
}

/// Adds a text, and tells whether it is new.
fn add(texts: &mut BTreeSet<Text>, text: Text) -> Result<bool, NoMemory>
    ensures new { IfOk result (λ b. b ≡ not (contains (slice_cmp nat_cmp) texts.old text)) }
    ensures keys { OnOk result ((q : List ℕ) → contains (slice_cmp nat_cmp) texts.new q ≡ (bytes_eq q text || contains (slice_cmp nat_cmp) texts.old q)) }
{
    Ok(texts.insert(text)?)
}
