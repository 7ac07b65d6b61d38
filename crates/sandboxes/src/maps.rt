//! Maps that are written one entry at a time.
ghost use Rattle.std.specs.Prelude.{◌≡◌, ◌+◌, ◌<◌, ◌≤◌, OnOk};
ghost use Rattle.std.specs.FinMap as finite;
ghost use Rattle.doc_tree.specs.Text.{text_cmp};
ghost use Rattle.indexmap.specs.IndexMap.{spare, insert_entry};

use crate::checksum::Checksum;
use doc_tree::NoMemory;
use indexmap::IndexMap;
use std::hash::Hash;

/// Puts a value in, for which there is room, in place of one of its key. It takes no memory.
pub fn put<V: Drop>(map: &mut IndexMap<Checksum, V>, key: Checksum, value: V)
    requires { 0 < spare map.old }
    ensures entries { finite.from_entries {R = text_cmp} map.new.entries ≡ finite.insert (finite.from_entries map.old.entries) key value }
    ensures spare { spare map.old ≤ spare map.new + 1 }
{
    let _ = map.insert(key, value);
}

/// Adds an entry behind those that are there, or writes over the one of its key.
pub fn add<K: Eq + Hash + Drop, V: Drop>(
    map: &mut IndexMap<K, V>,
    key: K,
    value: V,
) -> Result<(), NoMemory>
    ensures { OnOk result (map.new.entries ≡ insert_entry K.eq map.old.entries key value) }
{
    map.insert(key, value)?;
    Ok(())
}
