//! Items of data bags on the shelves.
ghost use Rattle.std.specs.Prelude.{◌≡◌, ◌||◌, ◌&&◌, List, ℕ, IfOk, OnOk, bytes_eq, is_some, IfSome, option_copied, string_bytes};
ghost use Rattle.std.specs.List.{after_first, before_first, list_any};
ghost use Rattle.indexmap.specs.IndexMap.{get_by_text, keys};
ghost use Rattle.object_store.specs.Items.{item_name};
ghost use Rattle.object_store.specs.Keys.{key};
ghost use Rattle.object_store.specs.Kept.{has, on_shelf, settled, item_among, item_on};
ghost use Rattle.object_store.specs.Shelving.{has_slash, holds_items, is_slash, key_at, word_of};

use crate::item::is_item;
use crate::listing::add_name;
use crate::shelves::{Shelf, Shelves, add_names, find};
use crate::shelving::{shelved, word_of};
use compact_json::CompactJson;
use doc_tree::{Kind, NoMemory, Text};
use std::alloc::Global;
use std::collections::BTreeSet;

/// The object of this kind and name on its shelf.
pub(crate) fn find_settled<'a>(
    shelves: &'a Shelves,
    kind: Kind,
    name: &str,
) -> Option<&'a CompactJson>
    ensures { option_copied result ≡ settled shelves.now (key kind name.now) }
{
    let (word, name) = shelved(kind, name);
    find(shelves, word, name)
}

/// The item of this id in this bag on its shelf, without joining its name.
pub(crate) fn find_item<'a>(shelves: &'a Shelves, bag: &str, id: &str) -> Option<&'a CompactJson>
    ensures { option_copied result ≡ settled shelves.now (key Kind.Item (item_name bag.now id.now)) }
{
    match split_bag(bag) {
        Some((front, rest)) => find_joined(shelves, front, rest, id),
        None => find(shelves, bag, id),
    }
}

fn split_bag(bag: &str) -> Option<(&str, &str)>
    ensures slash { is_some result ≡ has_slash bag.now }
    ensures front { IfSome result (λ parts. parts.0.now ≡ before_first is_slash bag.now) }
    ensures rest { IfSome result (λ parts. parts.1.now ≡ after_first is_slash bag.now) }
{
    match bag.split_once('/') {
        Some((front, rest)) => Some((front, rest)),
        None => None,
    }
}

// No bag's name has a slash, so no request comes here.
fn find_joined<'a>(shelves: &'a Shelves, word: &str, bag: &str, id: &str) -> Option<&'a CompactJson>
    ensures { option_copied result ≡ on_shelf shelves.now word.now (item_name bag.now id.now) }
{
    match shelves.get(word) {
        Some(shelf) => seek_joined(shelf, bag, id),
        None => None,
    }
}

fn seek_joined<'a>(shelf: &'a Shelf, bag: &str, id: &str) -> Option<&'a CompactJson>
    ensures { option_copied result ≡ get_by_text shelf.now (item_name bag.now id.now) }
{
    for (name, object) in shelf {
        if is_item(name.as_str(), bag, id) {
            return Some(object);
        }
    }
    None
}

/// Adds the names of the objects of a kind to others.
pub(crate) fn add_settled_names(
    alloc: Global,
    shelves: &Shelves,
    kind: Kind,
    names: &mut BTreeSet<Text>,
) -> Result<(), NoMemory>
    ensures { OnOk result ((name : List ℕ) → has names.new name ≡ (has names.old name || is_some (settled shelves.now (key kind name)))) }
{
    match kind {
        Kind::Item => add_items(alloc, shelves, names),
        _ => add_names(alloc, shelves, word_of(kind), names),
    }
}

// The items stand on the shelves of all bags, and what is no item's name on the shelf of the kind.
fn add_items(alloc: Global, shelves: &Shelves, names: &mut BTreeSet<Text>) -> Result<(), NoMemory>
    ensures { OnOk result ((name : List ℕ) → has names.new name ≡ (has names.old name || is_some (settled shelves.now (key Kind.Item name)))) }
{
    for (word, shelf) in shelves {
        if holds_items(word.as_str()) {
            add_items_on(alloc, shelves, word.as_str(), shelf, names)?;
        }
    }
    Ok(())
}

fn holds_items(word: &str) -> bool
    ensures { result ≡ holds_items word.now }
{
    !word.starts_with("/") || word == word_of(Kind::Item)
}

fn add_items_on(
    alloc: Global,
    shelves: &Shelves,
    word: &str,
    shelf: &Shelf,
    names: &mut BTreeSet<Text>,
) -> Result<(), NoMemory>
    ensures { OnOk result ((name : List ℕ) →
        has names.new name ≡ (has names.old name || (list_any (item_on word.now name) (keys shelf.now) && is_some (settled shelves.now (key Kind.Item name))))) }
{
    for (id, _) in shelf {
        add_item(alloc, shelves, word, id.as_str(), names)?;
    }
    Ok(())
}

fn add_item(
    alloc: Global,
    shelves: &Shelves,
    word: &str,
    id: &str,
    names: &mut BTreeSet<Text>,
) -> Result<(), NoMemory>
    ensures { OnOk result ((name : List ℕ) →
        has names.new name ≡ (has names.old name || (bytes_eq name (key_at word.now id.now).name && is_some (settled shelves.now (key Kind.Item name))))) }
{
    let name = name_at(alloc, word, id)?;
    if find_settled(shelves, Kind::Item, name.as_str()).is_none() {
        return Ok(());
    }
    add_name(alloc, name.as_str(), names)?;
    Ok(())
}

// The whole name of what has this name on this shelf.
fn name_at(alloc: Global, word: &str, name: &str) -> Result<Text, NoMemory>
    ensures { IfOk result (λ whole. whole ≡ (key_at word.now name.now).name) }
{
    if word.starts_with("/") {
        return Text::from_str(alloc, name);
    }
    let mut whole = String::from_str(alloc, word)?;
    whole.push_str("/")?;
    whole.push_str(name)?;
    Ok(Text::of(whole))
}

/// Whether a text has a slash.
pub(crate) fn has_slash(text: &str) -> bool
    ensures { result ≡ has_slash text.now }
{
    match text.split_once('/') {
        Some(_) => true,
        None => false,
    }
}
