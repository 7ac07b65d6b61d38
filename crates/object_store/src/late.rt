//! Objects by their keys, which came since room was last made.
ghost use Rattle.std.specs.Prelude.{◌≡◌, ◌&&◌, ◌||◌, [], List, ℕ, IfOk, OnOk, IfSome, IfNone, false, bytes_eq, is_some, option_copied};
ghost use Rattle.std.specs.List.{filter_map};
ghost use Rattle.indexmap.specs.IndexMap.{get, insert_entry};
ghost use Rattle.doc_tree.specs.Valid.{InOrder};
ghost use Rattle.object_store.specs.Items.{behind_front, item_front, item_name};
ghost use Rattle.object_store.specs.Keys.{key, same_key};
ghost use Rattle.object_store.specs.Kept.{has};

use crate::item::id_in;
use crate::key::Key;
use crate::listing::add_name;
use compact_json::CompactJson;
use doc_tree::{Kind, NoMemory, Text};
use indexmap::IndexMap;
use std::alloc::Global;
use std::collections::BTreeSet;
use std::hash::RandomState;

/// Objects by their keys.
pub(crate) type Late = IndexMap<Key, CompactJson, RandomState>;

/// The object of this kind and name, which is not copied. There are few, and it looks at each.
pub(crate) fn seek<'a>(late: &'a Late, kind: Kind, name: &str) -> Option<&'a CompactJson>
    ensures { option_copied result ≡ get same_key late.now (key kind name.now) }
{
    for (key, object) in late {
        if key.is_named(kind, name) {
            return Some(object);
        }
    }
    None
}

/// The item of this id in this bag. It looks at each.
pub(crate) fn seek_item<'a>(late: &'a Late, bag: &str, id: &str) -> Option<&'a CompactJson>
    ensures { option_copied result ≡ get same_key late.now (key Kind.Item (item_name bag.now id.now)) }
{
    for (key, object) in late {
        if key.is_item(bag, id) {
            return Some(object);
        }
    }
    None
}

/// Adds the names of the objects of a kind to others.
pub(crate) fn add_late_names(
    alloc: Global,
    late: &Late,
    kind: Kind,
    names: &mut BTreeSet<Text>,
) -> Result<(), NoMemory>
    ensures { OnOk result ((name : List ℕ) → has names.new name ≡ (has names.old name || is_some (get same_key late.now (key kind name)))) }
{
    for (key, _) in late {
        add_name_of(alloc, key, kind, names)?;
    }
    Ok(())
}

fn add_name_of(
    alloc: Global,
    its: &Key,
    kind: Kind,
    names: &mut BTreeSet<Text>,
) -> Result<(), NoMemory>
    ensures { OnOk result ((name : List ℕ) → has names.new name ≡ (has names.old name || same_key (key kind name) its.now)) }
{
    if its.is_of(kind) {
        add_name(alloc, its.name.as_str(), names)?;
    }
    Ok(())
}

/// Adds the ids of a bag's items to others.
pub(crate) fn add_late_ids(
    alloc: Global,
    late: &Late,
    bag: &str,
    ids: &mut BTreeSet<Text>,
) -> Result<(), NoMemory>
    ensures { OnOk result ((id : List ℕ) → has ids.new id ≡ (has ids.old id || is_some (get same_key late.now (key Kind.Item (item_name bag.now id))))) }
{
    for (key, _) in late {
        add_id_of(alloc, key, bag, ids)?;
    }
    Ok(())
}

fn add_id_of(alloc: Global, its: &Key, bag: &str, ids: &mut BTreeSet<Text>) -> Result<(), NoMemory>
    ensures { OnOk result ((id : List ℕ) → has ids.new id ≡ (has ids.old id || same_key (key Kind.Item (item_name bag.now id)) its.now)) }
{
    match id_of(its, bag) {
        Some(id) => add_name(alloc, id, ids),
        None => Ok(()),
    }
}

fn id_of<'a>(its: &'a Key, bag: &str) -> Option<&'a str>
    ensures some { IfSome result (λ found. (id : List ℕ) → bytes_eq id found.now ≡ same_key (key Kind.Item (item_name bag.now id)) its.now) }
    ensures none { IfNone result ((id : List ℕ) → same_key (key Kind.Item (item_name bag.now id)) its.now ≡ false) }
{
    if its.is_of(Kind::Item) {
        id_in(bag, its.name.as_str())
    } else {
        None
    }
}

/// An equal map with memory of its own, and room for no more.
pub(crate) fn copy_late(alloc: Global, late: &Late) -> Result<Late, NoMemory>
    ensures { IfOk result (λ copy. copy.entries ≡ late.now.entries) }
{
    let mut made = IndexMap::with_capacity_and_hasher(alloc, late.len(), *late.hasher())?;
    add_copies(alloc, late, &mut made).and(Ok(made))
}

// Adds a copy of each object to a map that has none.
fn add_copies(alloc: Global, late: &Late, made: &mut Late) -> Result<(), NoMemory>
    requires { made.old.entries ≡ [] }
    ensures { OnOk result (made.new.entries ≡ late.now.entries) }
{
    for (key, object) in late {
        keep(made, key.copy(alloc)?, object.copy(alloc)?)?;
    }
    Ok(())
}

fn keep(late: &mut Late, key: Key, object: CompactJson) -> Result<(), NoMemory>
    ensures { OnOk result (late.new.entries ≡ insert_entry same_key late.old.entries key object) }
{
    drop(late.insert(key, object)?);
    Ok(())
}
