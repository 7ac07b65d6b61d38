//! Fields to which keys are added that are below all others.
ghost use Rattle.doc_tree.specs.Doc.{pairs_of};
ghost use Rattle.doc_tree.specs.Part.{pair_at, with_pair};
ghost use Rattle.doc_tree.specs.Tree.{pair_of};
ghost use Rattle.doc_tree.specs.Valid.{InOrder};
ghost use Rattle.std.specs.Map.{keys_of};
ghost use Rattle.std.specs.Prelude.{◌≡◌, ◌↔◌, ◌∷◌, [], IfOk, IsTrue, None, OnOk, is_some, map};

use crate::document::Document;
use doc_tree::{Field, Fields, NoMemory, Text};
use std::alloc::Global;
use std::marker::Model;

/// Fields, the least key last, so that a key below all others goes in without that they move. Contracts see the list
/// of the keys in their order, each with its document.
#[derive(Drop)]
pub(crate) struct Falling {
    entries: Vec<Field>,
}

impl Model for Falling {
    ghost use Rattle.std.specs.Prelude.{ℕ, List, map, reverse};
    ghost use Rattle.std.specs.Coded.{coded_ℕ, coded_list, coded×};
    ghost use Rattle.std.specs.Map.{keys_of};
    ghost use Rattle.doc_tree.specs.Doc.{Doc};
    ghost use Rattle.doc_tree.specs.DocCode.{doc_code};
    ghost use Rattle.doc_tree.specs.Tree.{pair_of};
    ghost use Rattle.doc_tree.specs.Valid.{InOrder};

    ghost Value = { List (List ℕ × Doc) };

    ghost coded = { coded_list (coded× (coded_list coded_ℕ) doc_code) };

    ghost view = { λ f. map pair_of (reverse f.entries.items) };

    ghost invariant = { λ f. InOrder (keys_of (map pair_of (reverse f.entries.items))) };
}

impl Falling {
    /// The fields of a dict, which are moved.
    pub fn of(fields: Fields) -> Falling
        ensures { result ≡ fields }
    {
        let mut entries = fields.into_vec();
        entries.reverse();
        Falling { entries }
    }

    /// Whether a key is there. It looks at one after the other, which a map that is read asks once at most: a key that
    /// isn't below all others makes an ordered map of them.
    pub fn has(&self, key: &Text) -> bool
        ensures { result ≡ is_some (pair_at key.now (pairs_of self.now)) }
    {
        has_key(key, self.entries.as_slice())
    }

    /// Whether a key stands below all that are there.
    pub fn is_below(&self, key: &Text) -> bool
        ensures order { IsTrue result ↔ InOrder (key.now ∷ keys_of self.now) }
        ensures free { IsTrue result → pair_at key.now (pairs_of self.now) ≡ None }
    {
        match self.entries.as_slice().last() {
            Some(least) => *key < least.key,
            None => true,
        }
    }

    /// Adds a key below all others.
    pub fn put_first(&mut self, key: Text, document: Document) -> Result<(), NoMemory>
        requires { InOrder (key ∷ keys_of self.old) }
        ensures { OnOk result (self.new ≡ with_pair key document self.old) }
    {
        let tree = document.into_tree();
        self.entries.push(Field { key, tree })?;
        Ok(())
    }

    /// The fields of a dict, which are moved out.
    pub fn into_fields(self, alloc: Global) -> Result<Fields, NoMemory>
        ensures { IfOk result (λ fields. fields ≡ self) }
    {
        let Falling { mut entries } = self;
        entries.reverse();
        fields_of(alloc, entries)
    }
}

fn has_key(key: &Text, fields: &[Field]) -> bool
    ensures { result ≡ is_some (pair_at key.now (pairs_of (map pair_of fields.now))) }
{
    for field in fields {
        if field.key == *key {
            return true;
        }
    }
    false
}

fn fields_of(alloc: Global, entries: Vec<Field>) -> Result<Fields, NoMemory>
    requires { InOrder (keys_of (map pair_of entries.items)) }
    ensures { IfOk result (λ fields. fields ≡ map pair_of entries.items) }
{
    let mut fields = Fields::with_capacity(alloc, entries.len())?;
    for field in entries {
        fields.push(field.key, field.tree)?;
    }
    Ok(fields)
}
