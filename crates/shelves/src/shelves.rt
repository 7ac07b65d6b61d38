//! Values by a name and then a key: the values of one name stand on one shelf.
ghost use Rattle.shelves.specs.Shelves.{shelves_of, has_shelf, value_at, put, without, AreFilled};
ghost use Rattle.shelves.specs.SortedMap.{map_of};
ghost use Rattle.shelves.specs.Rooms.{shelves_seen, HaveRoom, HaveRoomEach, AreFresh};
ghost use Rattle.std.specs.FinMap as finite;
ghost use Rattle.std.specs.Prelude.{ℕ, ◌≡◌, ◌+◌, ◌-◌, ◌≤◌, [], IfOk, OnOk, length, map, option_map, option_copied, vec_capacity, vec_len};

use crate::duplicate::Duplicate;
use crate::places::search;
use crate::sorted_map::SortedMap;
use doc_tree::{NoMemory, Text};
use std::alloc::Global;
use std::marker::Model;

/// Values by a name and then a key, with room kept ahead. Contracts see the shelves with their names, of which
/// `shelves_of` is the finite map of finite maps, and how many more values fit without memory.
#[derive(Drop)]
pub struct Shelves<K: Ord, V> {
    shelves: Vec<(Text, SortedMap<K, V>)>,
    fresh: Vec<SortedMap<K, V>>,
    spare: usize,
    alloc: Global,
}

impl<K: Ord, V> Model for Shelves<K, V> {
    ghost use Rattle.shelves.specs.Shelves.{Kept, kept_code};

    ghost Value = { Kept K V };

    ghost coded = { kept_code K.code V.code };

    ghost use Rattle.std.specs.Prelude.{◌-◌, vec_len, vec_capacity};
    ghost use Rattle.shelves.specs.Rooms.{shelves_seen, AreShelves, HaveRoom};

    ghost view = { λ s. record { entries = shelves_seen s.shelves.items; spare = s.spare } };

    ghost invariant = { λ s. record {
      shelves : AreShelves K.cmp (shelves_seen s.shelves.items);
      room : HaveRoom s.spare s.shelves.items (vec_capacity s.shelves - vec_len s.shelves) s.fresh.items;
    } };
}

impl<K: Ord, V> Shelves<K, V> {
    /// No values, and no room. It takes no memory.
    pub fn none(alloc: Global) -> Shelves<K, V>
        ensures { shelves_of K.cmp result ≡ finite.empty }
    {
        Shelves {
            shelves: Vec::new(alloc),
            fresh: Vec::new(alloc),
            spare: 0,
            alloc,
        }
    }

    /// The value under a name at a key, or `None` exactly where there is none.
    pub fn get(&self, name: &Text, key: &K) -> Option<&V>
        ensures { option_copied result ≡ value_at (shelves_of K.cmp self.now) name.now key.now }
    {
        self.shelf(name)?.get(key)
    }

    /// The shelf of a name, or `None` exactly where no value stands under it.
    pub fn shelf(&self, name: &Text) -> Option<&SortedMap<K, V>>
        ensures shelf { option_map (λ shelf. map_of K.cmp shelf.now) result ≡ finite.get (shelves_of K.cmp self.now) name.now }
        ensures filled { AreFilled (shelves_of K.cmp self.now) }
    {
        match search(&self.shelves, name) {
            Ok(at) => Some(&self.shelves[at].1),
            Err(_) => None,
        }
    }

    /// Whether some value stands under a name.
    pub fn has(&self, name: &Text) -> bool
        ensures has { result ≡ has_shelf (shelves_of K.cmp self.now) name.now }
        ensures filled { AreFilled (shelves_of K.cmp self.now) }
    {
        self.shelf(name).is_some()
    }

    /// The shelves with their names, in the byte order of the names.
    pub fn shelves(&self) -> &[(Text, SortedMap<K, V>)]
        ensures shelves { map (λ entry. (entry.0, map_of K.cmp entry.1)) result.now ≡ finite.entries (shelves_of K.cmp self.now) }
        ensures filled { AreFilled (shelves_of K.cmp self.now) }
    {
        &self.shelves
    }
}

impl<K: Ord + Drop, V: Drop> Shelves<K, V> {
    /// Makes room for at least `count` further values, so that as many `put`s take no memory, whatever the names. What
    /// is there stays, and the room never falls, also after `NoMemory`, which comes for want of memory alone.
    ///
    /// Each shelf, and each of `count` fresh ones, gets room for `count` values: ask for what the next change needs.
    pub fn reserve(&mut self, count: usize) -> Result<(), NoMemory>
        ensures shelves { shelves_of K.cmp self.new ≡ shelves_of K.cmp self.old }
        ensures ok { OnOk result (count ≤ self.new.spare) }
        ensures spare { self.old.spare ≤ self.new.spare }
    {
        if count > self.spare {
            make_room(self.alloc, &mut self.shelves, &mut self.fresh, count)?;
            self.spare = count;
        }
        Ok(())
    }

    /// Puts a value, for which there is room, under a name at a key, and hands out what stood there: `None` exactly
    /// where nothing did. It takes no memory.
    pub fn put(&mut self, name: Text, key: K, value: V) -> Option<V>
        requires { 1 ≤ self.old.spare }
        ensures shelves { shelves_of K.cmp self.new ≡ put name key value (shelves_of K.cmp self.old) }
        ensures value { result ≡ value_at (shelves_of K.cmp self.old) name key }
        ensures spare { self.old.spare ≤ self.new.spare + 1 }
    {
        self.spare -= 1;
        match search(&self.shelves, &name) {
            Ok(at) => self.shelves[at].1.insert(key, value),
            Err(at) => {
                // The pool has as many shelves as there is room for values, and so have the shelves.
                let Some(mut shelf) = self.fresh.pop() else {
                    unreachable!();
                };
                let old = shelf.insert(key, value);
                drop(self.shelves.insert(at, (name, shelf)));
                old
            }
        }
    }

    /// Takes out what stands under a name at a key, and the shelf with its last value: `None` exactly where nothing
    /// stands there. It takes no memory, and the room never falls.
    pub fn take_out(&mut self, name: &Text, key: &K) -> Option<V>
        ensures shelves { shelves_of K.cmp self.new ≡ without name.now key.now (shelves_of K.cmp self.old) }
        ensures value { result ≡ value_at (shelves_of K.cmp self.old) name.now key.now }
        ensures spare { self.old.spare ≤ self.new.spare }
    {
        match search(&self.shelves, name) {
            Ok(at) => {
                let shelf = &mut self.shelves[at].1;
                let value = shelf.remove(key);
                if shelf.is_empty() {
                    drop(self.shelves.remove(at));
                }
                value
            }
            Err(_) => None,
        }
    }

    /// Takes the whole shelf of a name out, if there is one. It takes no memory, and the room never falls.
    pub fn remove_shelf(&mut self, name: &Text)
        ensures shelves { shelves_of K.cmp self.new ≡ finite.remove (shelves_of K.cmp self.old) name.now }
        ensures spare { self.old.spare ≤ self.new.spare }
    {
        if let Ok(at) = search(&self.shelves, name) {
            drop(self.shelves.remove(at));
        }
    }
}

impl<K: Ord + Duplicate + Drop, V: Duplicate + Drop> Shelves<K, V> {
    /// Equal shelves with memory of their own, and no room for more.
    pub fn copy(&self, alloc: Global) -> Result<Shelves<K, V>, NoMemory>
        ensures shelves { IfOk result (λ copy. shelves_of K.cmp copy ≡ shelves_of K.cmp self.now) }
    {
        let mut shelves = Vec::with_capacity(alloc, self.shelves.len())?;
        push_copies(alloc, &self.shelves, &mut shelves)?;
        Ok(Shelves {
            shelves,
            fresh: Vec::new(alloc),
            spare: 0,
            alloc,
        })
    }
}

/// Puts copies of shelves, with their names, where there are none yet.
fn push_copies<K: Ord + Duplicate + Drop, V: Duplicate + Drop>(
    alloc: Global,
    shelves: &[(Text, SortedMap<K, V>)],
    made: &mut Vec<(Text, SortedMap<K, V>)>,
) -> Result<(), NoMemory>
    requires { made.old.items ≡ [] }
    ensures { OnOk result (shelves_seen made.new.items ≡ shelves_seen shelves.now) }
{
    for (name, shelf) in shelves {
        made.push((name.copy(alloc)?, shelf.copy(alloc)?))?;
    }
    Ok(())
}

/// Makes room for further shelves, on each shelf and in the pool.
fn make_room<K: Ord + Drop, V: Drop>(
    alloc: Global,
    shelves: &mut Vec<(Text, SortedMap<K, V>)>,
    fresh: &mut Vec<SortedMap<K, V>>,
    count: usize,
) -> Result<(), NoMemory>
    ensures seen { shelves_seen shelves.new.items ≡ shelves_seen shelves.old.items }
    ensures room { (spare : ℕ) → spare ≤ count → HaveRoom spare shelves.old.items (vec_capacity shelves.old - vec_len shelves.old) fresh.old.items → HaveRoom spare shelves.new.items (vec_capacity shelves.new - vec_len shelves.new) fresh.new.items }
    ensures ok { OnOk result ((spare : ℕ) → AreFresh spare fresh.old.items → HaveRoom count shelves.new.items (vec_capacity shelves.new - vec_len shelves.new) fresh.new.items) }
{
    shelves.reserve(count)?;
    reserve_on_each(shelves, count)?;
    reserve_in_pool(fresh, count)?;
    fill_pool(alloc, fresh, count)?;
    Ok(())
}

/// Makes room on each shelf.
fn reserve_on_each<K: Ord, V>(
    shelves: &mut [(Text, SortedMap<K, V>)],
    count: usize,
) -> Result<(), NoMemory>
    ensures seen { shelves_seen shelves.new ≡ shelves_seen shelves.old }
    ensures room { (spare : ℕ) → HaveRoomEach spare shelves.old → HaveRoomEach spare shelves.new }
    ensures ok { OnOk result (HaveRoomEach count shelves.new) }
{
    for (_, shelf) in shelves.iter_mut() {
        shelf.reserve(count)?;
    }
    Ok(())
}

/// Makes room on each shelf of a pool.
fn reserve_in_pool<K: Ord, V>(fresh: &mut [SortedMap<K, V>], count: usize) -> Result<(), NoMemory>
    ensures pool { (spare : ℕ) → AreFresh spare fresh.old → AreFresh spare fresh.new }
    ensures ok { OnOk result ((spare : ℕ) → AreFresh spare fresh.old → AreFresh count fresh.new) }
{
    for shelf in fresh.iter_mut() {
        shelf.reserve(count)?;
    }
    Ok(())
}

/// Puts as many shelves into a pool as are missing, each with room.
fn fill_pool<K: Ord + Drop, V: Drop>(
    alloc: Global,
    fresh: &mut Vec<SortedMap<K, V>>,
    count: usize,
) -> Result<(), NoMemory>
    ensures pool { (spare : ℕ) → spare ≤ count → AreFresh spare fresh.old.items → AreFresh spare fresh.new.items }
    ensures ok { OnOk result (count ≤ length fresh.new.items) }
    ensures len { length fresh.old.items ≤ length fresh.new.items }
{
    while fresh.len() < count {
        let mut shelf = SortedMap::new(alloc);
        shelf.reserve(count)?;
        fresh.push(shelf)?;
    }
    Ok(())
}
