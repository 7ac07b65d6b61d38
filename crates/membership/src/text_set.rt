//! Sets of texts.
ghost use Rattle.std.specs.Prelude.{ℕ, List, [], ◌∷◌, ◌++◌, ◌≡◌, ◌↔◌, not, bytes_eq, IsTrue, IfOk};
ghost use Rattle.doc_tree.specs.Valid.{InOrder};
ghost use Rattle.membership.specs.TextSets.{IsRising, in_order, lists, without};

use doc_tree::{NoMemory, Text, Texts};
use std::alloc::Global;
use std::marker::Model;

/// Texts in the order of their bytes, each once: contracts see the list of them.
#[derive(Drop)]
pub struct TextSet {
    items: Vec<Text>,
}

impl Model for TextSet {
    ghost use Rattle.std.specs.Prelude.{ℕ, List};
    ghost use Rattle.membership.specs.TextSets.{IsRising};

    ghost Value = { List (List ℕ) };

    ghost view = { λ s. s.items.items };

    ghost invariant = { λ s. IsRising s.items.items };
}

impl TextSet {
    /// No texts. It takes no memory.
    pub fn new(alloc: Global) -> TextSet
        ensures { result ≡ [] }
    {
        TextSet {
            items: Vec::new(alloc),
        }
    }

    /// Some texts, in any order and with any repeats: they are put in order where they stand,
    /// which takes no memory.
    pub fn of(items: Vec<Text>) -> TextSet
        ensures value { result ≡ in_order items.items }
        ensures rising { IsRising result }
    {
        let mut items = items;
        items.sort_unstable();
        items.dedup();
        TextSet { items }
    }

    /// Copies of some texts, in any order and with any repeats.
    pub(crate) fn of_copies(alloc: Global, texts: &[Text]) -> Result<TextSet, NoMemory>
        ensures { IfOk result (λ set. set ≡ in_order texts.now) }
    {
        Ok(TextSet::of(copies(alloc, texts, 0)?))
    }

    /// The texts in the order of their bytes, as a list.
    pub fn into_texts(self) -> Texts
        ensures value { result ≡ self }
        ensures order { InOrder result }
    {
        let TextSet { items } = self;
        Texts::of(items)
    }

    /// The texts in the order of their bytes, as a slice that borrows them.
    pub fn as_slice(&self) -> &[Text]
        ensures value { result.now ≡ self.now }
        ensures rising { IsRising self.now }
    {
        self.items.as_slice()
    }

    /// Whether there are no texts.
    pub fn is_empty(&self) -> bool
        ensures { IsTrue result ↔ (self.now ≡ []) }
    {
        self.items.is_empty()
    }

    /// Whether a text is one of these. It is looked for by halves.
    pub fn contains(&self, text: &Text) -> bool
        ensures { result ≡ lists self.now text.now }
    {
        self.items.binary_search(text).is_ok()
    }

    /// An equal set with memory of its own, and no more than it needs.
    pub fn copy(&self, alloc: Global) -> Result<TextSet, NoMemory>
        ensures { IfOk result (λ copy. copy ≡ self.now) }
    {
        Ok(TextSet {
            items: copies(alloc, self.items.as_slice(), 0)?,
        })
    }

    /// These texts and one more.
    pub fn with(&self, alloc: Global, text: &Text) -> Result<TextSet, NoMemory>
        ensures { IfOk result (λ more. more ≡ in_order (self.now ++ text.now ∷ [])) }
    {
        let mut items = copies(alloc, self.items.as_slice(), 1)?;
        items.push(text.copy(alloc)?)?;
        Ok(TextSet::of(items))
    }

    /// Takes a text out, if it is there. It takes no memory.
    pub fn take_out(&mut self, text: &Text)
        ensures { self.new ≡ without text.now self.old }
    {
        self.items.retain(|other| is_other(text, other));
    }
}

fn is_other(text: &Text, other: &Text) -> bool
    ensures { result ≡ not (bytes_eq text.now other.now) }
{
    text != other
}

/// Copies of texts, with room for so many more.
fn copies(alloc: Global, texts: &[Text], more: usize) -> Result<Vec<Text>, NoMemory>
    ensures { IfOk result (λ copies. copies.items ≡ texts.now) }
{
    let mut copies = Vec::with_capacity(alloc, texts.len().saturating_add(more))?;
    for text in texts {
        copies.push(text.copy(alloc)?)?;
    }
    Ok(copies)
}
