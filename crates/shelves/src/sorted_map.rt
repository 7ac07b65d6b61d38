//! Values by their keys, in the order of the keys.
ghost use Rattle.shelves.specs.Places.{IsInKeyOrder};
ghost use Rattle.shelves.specs.SortedMap.{map_of, without_key, last_entry, each_value, IsGreatest};
ghost use Rattle.std.specs.FinMap as finite;
ghost use Rattle.std.specs.Prelude.{[], map, ◌≡◌, ◌+◌, ◌≤◌, ◌↔◌, IsTrue, IfOk, IfSome, OnOk, is_some, option_copied};

use crate::duplicate::Duplicate;
use crate::forget::Forget;
use crate::places::search;
use doc_tree::{NoMemory, Text};
use std::alloc::Global;
use std::marker::Model;
use std::mem;

/// Values by their keys, in the order of the keys, with room kept ahead. Contracts see the entries, of which
/// `map_of` is the finite map, and how many more fit without memory.
#[derive(Drop)]
pub struct SortedMap<K: Ord, V> {
    items: Vec<(K, V)>,
}

impl<K: Ord, V> Model for SortedMap<K, V> {
    ghost use Rattle.shelves.specs.SortedMap.{Sorted, sorted_code};

    ghost Value = { Sorted K V };

    ghost coded = { sorted_code K.code V.code };

    ghost use Rattle.std.specs.Prelude.{◌-◌, vec_len, vec_capacity};
    ghost use Rattle.shelves.specs.Places.{IsInKeyOrder};

    ghost view = { λ m. record { entries = m.items.items; spare = vec_capacity m.items - vec_len m.items } };

    ghost invariant = { λ m. IsInKeyOrder K.cmp m.items.items };
}

impl<K: Ord, V> SortedMap<K, V> {
    /// The map of no values, with no room. It takes no memory.
    pub fn new(alloc: Global) -> SortedMap<K, V>
        ensures map { map_of K.cmp result ≡ finite.empty }
        ensures entries { result.entries ≡ [] }
    {
        SortedMap {
            items: Vec::new(alloc),
        }
    }

    /// How many keys have a value.
    pub fn len(&self) -> usize
        ensures { result ≡ finite.len (map_of K.cmp self.now) }
    {
        self.items.len()
    }

    /// Whether no key has a value.
    pub fn is_empty(&self) -> bool
        ensures { IsTrue result ↔ (map_of K.cmp self.now ≡ finite.empty) }
    {
        self.items.is_empty()
    }

    /// Makes room for at least `count` further keys, so that as many `insert`s take no memory. What is there stays,
    /// and the room never falls, also after `NoMemory`, which comes for want of memory alone.
    pub fn reserve(&mut self, count: usize) -> Result<(), NoMemory>
        ensures map { map_of K.cmp self.new ≡ map_of K.cmp self.old }
        ensures entries { self.new.entries ≡ self.old.entries }
        ensures ok { OnOk result (count ≤ self.new.spare) }
        ensures spare { self.old.spare ≤ self.new.spare }
    {
        self.items.reserve(count)?;
        Ok(())
    }

    /// The value of a key, or `None` exactly where it has none. It is found by halves.
    pub fn get(&self, key: &K) -> Option<&V>
        ensures { option_copied result ≡ finite.get (map_of K.cmp self.now) key.now }
    {
        match search(&self.items, key) {
            Ok(at) => Some(&self.items[at].1),
            Err(_) => None,
        }
    }

    /// Whether a key has a value.
    pub fn contains(&self, key: &K) -> bool
        ensures { result ≡ is_some (finite.get (map_of K.cmp self.now) key.now) }
    {
        self.get(key).is_some()
    }

    /// The keys with their values, in the order of the keys.
    pub fn entries(&self) -> &[(K, V)]
        ensures entries { result.now ≡ finite.entries (map_of K.cmp self.now) }
        ensures order { IsInKeyOrder K.cmp self.now.entries }
    {
        &self.items
    }

    /// The entry of the greatest key, or `None` exactly where no key has a value.
    pub fn last(&self) -> Option<&(K, V)>
        ensures entry { option_copied result ≡ last_entry (map_of K.cmp self.now) }
        ensures greatest { IfSome result (λ entry. IsGreatest entry.now.0 (map_of K.cmp self.now)) }
    {
        self.items.last()
    }
}

impl<K: Ord + Drop, V: Drop> SortedMap<K, V> {
    /// Gives a key this value, for which there is room, and hands its old value out: `None` exactly where it had none.
    /// An equal key that is there stays. It takes no memory.
    pub fn insert(&mut self, key: K, value: V) -> Option<V>
        requires { 1 ≤ self.old.spare }
        ensures map { map_of K.cmp self.new ≡ finite.insert (map_of K.cmp self.old) key value }
        ensures order { IsInKeyOrder K.cmp self.new.entries }
        ensures value { result ≡ finite.get (map_of K.cmp self.old) key }
        ensures spare { self.old.spare ≤ self.new.spare + 1 }
    {
        match search(&self.items, &key) {
            Ok(at) => Some(mem::replace(&mut self.items[at].1, value)),
            Err(at) => {
                // There is room, so it goes in.
                drop(self.items.insert(at, (key, value)));
                None
            }
        }
    }

    /// Takes the value of a key out, if it has one: `None` exactly where it has none. It takes no memory, and the room
    /// never falls. Where only equal keys tie, the map is what `remove` of finite maps makes of it.
    pub fn remove(&mut self, key: &K) -> Option<V>
        ensures map { map_of K.cmp self.new ≡ without_key key.now (map_of K.cmp self.old) }
        ensures removed { finite.IsAntisymmetric K.cmp → map_of K.cmp self.new ≡ finite.remove (map_of K.cmp self.old) key.now }
        ensures order { IsInKeyOrder K.cmp self.new.entries }
        ensures value { result ≡ finite.get (map_of K.cmp self.old) key.now }
        ensures spare { self.old.spare ≤ self.new.spare }
    {
        match search(&self.items, key) {
            Ok(at) => {
                let (_, value) = self.items.remove(at);
                Some(value)
            }
            Err(_) => None,
        }
    }
}

impl<K: Ord, V: Forget> SortedMap<K, V> {
    /// Has each value forget what it has under a name. It takes no memory, and the room stays.
    pub fn forget_in_each(&mut self, name: &Text)
        ensures map { map_of K.cmp self.new ≡ each_value (V.without name.now) (map_of K.cmp self.old) }
        ensures spare { self.new.spare ≡ self.old.spare }
    {
        forget_in_each(&mut self.items, name);
    }
}

impl<K: Ord + Duplicate + Drop, V: Duplicate + Drop> SortedMap<K, V> {
    /// An equal map with memory of its own, and no room for more.
    pub fn copy(&self, alloc: Global) -> Result<SortedMap<K, V>, NoMemory>
        ensures entries { IfOk result (λ copy. copy.entries ≡ self.now.entries) }
    {
        let mut items = Vec::with_capacity(alloc, self.items.len())?;
        push_copies(alloc, &self.items, &mut items)?;
        Ok(SortedMap { items })
    }
}

/// Puts copies of entries where there are none yet.
fn push_copies<K: Duplicate + Drop, V: Duplicate + Drop>(
    alloc: Global,
    entries: &[(K, V)],
    made: &mut Vec<(K, V)>,
) -> Result<(), NoMemory>
    requires { made.old.items ≡ [] }
    ensures { OnOk result (made.new.items ≡ entries.now) }
{
    for (key, value) in entries {
        made.push((key.duplicate(alloc)?, value.duplicate(alloc)?))?;
    }
    Ok(())
}

/// Has the value of each entry forget what it has under a name.
fn forget_in_each<K, V: Forget>(entries: &mut [(K, V)], name: &Text)
    ensures { entries.new ≡ map (λ e. (e.0, V.without name.now e.1)) entries.old }
{
    for (_, value) in entries.iter_mut() {
        value.forget(name);
    }
}
