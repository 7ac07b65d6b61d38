//! The keys of a map that is being read, each with its document.
ghost use Rattle.doc_tree.specs.Doc.{pairs_of};
ghost use Rattle.doc_tree.specs.Part.{pair_at, with_pair};
ghost use Rattle.doc_tree.specs.Tree.{pair_of};
ghost use Rattle.doc_tree.specs.Valid.{InOrder};
ghost use Rattle.std.specs.Map.{keys_of};
ghost use Rattle.std.specs.Prelude.{◌≡◌, ◌↔◌, ◌++◌, ◌∷◌, [], IfOk, IsTrue, None, OnOk, is_some};
ghost use Rattle.yaml_subset.specs.Pairs.{pairs_held};

use crate::document::Document;
use crate::falling::Falling;
use doc_tree::{Field, Fields, NoMemory, Text};
use std::alloc::Global;
use std::collections::BTreeMap;
use std::marker::Model;
use std::mem::replace;

/// How many keys may come in any order and stay in the list.
const FEW: usize = 32;

/// In what the keys are held.
#[derive(Drop)]
pub(crate) enum Held {
    /// Keys each of which came behind all before it in their order, or few keys.
    Listed(Fields),
    /// The keys of a list, and then keys each of which came below all before it.
    Falling(Falling),
    /// Keys of which one came before another in their order: it goes in without that all behind it moves.
    Mapped(BTreeMap<Text, Document>),
}

/// The keys of a map, each with its document, in the order of their bytes whatever the order of the text. Contracts
/// see the list of them.
#[derive(Drop)]
pub(crate) struct Pairs {
    held: Held,
}

impl Model for Pairs {
    ghost use Rattle.std.specs.Prelude.{ℕ, List};
    ghost use Rattle.std.specs.Coded.{coded_ℕ, coded_list, coded×};
    ghost use Rattle.doc_tree.specs.Doc.{Doc};
    ghost use Rattle.doc_tree.specs.DocCode.{doc_code};
    ghost use Rattle.yaml_subset.specs.Pairs.{pairs_held};

    ghost Value = { List (List ℕ × Doc) };

    ghost coded = { coded_list (coded× (coded_list coded_ℕ) doc_code) };

    ghost view = { λ p. pairs_held p.held };
}

impl Pairs {
    /// No keys, without memory.
    pub(crate) fn new(alloc: Global) -> Pairs
        ensures { result ≡ [] }
    {
        Pairs {
            held: Held::Listed(Fields::new(alloc)),
        }
    }

    /// Whether a key is there.
    pub(crate) fn has(&self, key: &Text) -> bool
        ensures { result ≡ is_some (pair_at key.now (pairs_of self.now)) }
    {
        match &self.held {
            Held::Listed(fields) => !is_behind(key, fields) && fields.get(key.as_str()).is_some(),
            Held::Falling(falling) => !falling.is_below(key) && falling.has(key),
            Held::Mapped(map) => is_mapped(map, key),
        }
    }

    /// One key more, or another document at a key that is there.
    pub fn put(&mut self, alloc: Global, key: Text, document: Document) -> Result<(), NoMemory>
        ensures { OnOk result (self.new ≡ with_pair key document self.old) }
    {
        put_held(alloc, key, document, &mut self.held)
    }

    /// The fields of a dict, which are moved out.
    pub(crate) fn into_fields(self, alloc: Global) -> Result<Fields, NoMemory>
        ensures { IfOk result (λ fields. fields ≡ self) }
    {
        let Pairs { held } = self;
        match held {
            Held::Listed(fields) => Ok(fields),
            Held::Falling(falling) => falling.into_fields(alloc),
            Held::Mapped(map) => fields_from(alloc, map),
        }
    }
}

fn is_mapped(map: &BTreeMap<Text, Document>, key: &Text) -> bool
    ensures { result ≡ is_some (pair_at key.now (pairs_of map.now.entries)) }
{
    map.contains_key(key)
}

fn put_held(alloc: Global, key: Text, document: Document, held: &mut Held) -> Result<(), NoMemory>
    ensures { OnOk result (pairs_held held.new ≡ with_pair key document (pairs_held held.old)) }
{
    match held {
        Held::Listed(fields) => {
            if is_behind(&key, fields) {
                return put_last(key, document, fields);
            }
            if fields.len() < FEW {
                fields.put(key, document.into_tree())?;
                return Ok(());
            }
            let falling = Falling::of(replace(fields, Fields::new(alloc)));
            *held = put_many(alloc, key, document, falling)?;
            Ok(())
        }
        Held::Falling(falling) => {
            if falling.is_below(&key) {
                return falling.put_first(key, document);
            }
            let falling = replace(falling, Falling::of(Fields::new(alloc)));
            *held = put_many(alloc, key, document, falling)?;
            Ok(())
        }
        Held::Mapped(map) => {
            map.insert(key, document)?;
            Ok(())
        }
    }
}

// One key more, where the list is left: below all others, or anywhere.
fn put_many(
    alloc: Global,
    key: Text,
    document: Document,
    falling: Falling,
) -> Result<Held, NoMemory>
    ensures { IfOk result (λ held. pairs_held held ≡ with_pair key document falling) }
{
    let mut falling = falling;
    if falling.is_below(&key) {
        falling.put_first(key, document)?;
        return Ok(Held::Falling(falling));
    }
    let mut map = map_from(alloc, falling.into_fields(alloc)?)?;
    map.insert(key, document)?;
    Ok(Held::Mapped(map))
}

// Whether a key stands behind all that are there, in their order.
fn is_behind(key: &Text, fields: &Fields) -> bool
    ensures order { IsTrue result ↔ InOrder (keys_of fields.now ++ key.now ∷ []) }
    ensures free { IsTrue result → pair_at key.now (pairs_of fields.now) ≡ None }
{
    match fields.as_slice().last() {
        Some(last) => last.key < *key,
        None => true,
    }
}

fn put_last(key: Text, document: Document, fields: &mut Fields) -> Result<(), NoMemory>
    requires { InOrder (keys_of fields.old ++ key ∷ []) }
    ensures { OnOk result (fields.new ≡ with_pair key document fields.old) }
{
    fields.push(key, document.into_tree())?;
    Ok(())
}

fn map_from(alloc: Global, fields: Fields) -> Result<BTreeMap<Text, Document>, NoMemory>
    ensures { IfOk result (λ map. map.entries ≡ fields) }
{
    let mut map = BTreeMap::new(alloc);
    for field in fields.into_vec() {
        add_last(&mut map, field)?;
    }
    Ok(map)
}

/// Adds a field whose key stands behind those that are there.
#[tactic(auto, using(crate::proofs::PairsLemmas::insert_last))]
fn add_last(map: &mut BTreeMap<Text, Document>, field: Field) -> Result<(), NoMemory>
    requires { InOrder (keys_of map.old.entries ++ field.key ∷ []) }
    ensures { OnOk result (map.new.entries ≡ map.old.entries ++ pair_of field ∷ []) }
{
    map.insert(field.key, Document::of(field.tree))?;
    Ok(())
}

fn fields_from(alloc: Global, map: BTreeMap<Text, Document>) -> Result<Fields, NoMemory>
    ensures { IfOk result (λ fields. fields ≡ map.entries) }
{
    let mut fields = Fields::with_capacity(alloc, map.len())?;
    for (key, document) in map {
        fields.push(key, document.into_tree())?;
    }
    Ok(fields)
}
