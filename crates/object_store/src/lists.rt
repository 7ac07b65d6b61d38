//! Access lists, by the keys of their objects.
ghost use Rattle.std.specs.Prelude.{◌≡◌, ◌+◌, ◌<◌, ◌≤◌, IfOk, None, OnOk, map};
ghost use Rattle.std.specs.FinMap as finite;
ghost use Rattle.indexmap.specs.IndexMap.{get, spare};
ghost use Rattle.membership.specs.MapValues.{map_values};
ghost use Rattle.slab.specs.Slab.{HasRoomFor};
ghost use Rattle.access_lists.specs.Acls.{each_entry, without_actor, without_group};
ghost use Rattle.object_store.specs.Bases.{IsKept, room, seen, share_left};
ghost use Rattle.object_store.specs.Keys.{same_key};

use crate::bases::{
    Bases, Share, copy_of, lend, release, take_actor_from_each, take_group_from_each, take_in,
};
use crate::key::Key;
use crate::near::Near;
use access_lists::{Acl, AclAt};
use doc_tree::{NoMemory, Text};
use indexmap::IndexMap;
use slab::Slab;
use std::alloc::Global;
use std::hash::RandomState;
use std::marker::Model;

/// Shares of access lists by the hashes of their keys.
type Hashed = IndexMap<Key, Share, RandomState>;

/// Access lists by the keys of their objects, with room for a number of further ones. Contracts see the
/// finite map of the lists, and the room.
///
/// Nearly all lists of an organisation are those of their containers with who created the object as one
/// more actor, so that a list is kept as who created it and the number of a base that lists share.
#[derive(Drop)]
pub(crate) struct Lists {
    items: Hashed,
    bases: Bases,
    near: Near,
}

impl Model for Lists {
    ghost use Rattle.object_store.specs.Objects.{KeptLists, kept_lists_code, smaller};

    ghost Value = { KeptLists };

    ghost coded = { kept_lists_code };

    ghost use Rattle.indexmap.specs.IndexMap.{spare};
    ghost use Rattle.object_store.specs.Bases.{IsKept, room, seen};

    ghost view = { λ l. record { lists = seen l.bases l.items.entries; spare = smaller (spare l.items) (room l.bases) } };

    ghost invariant = { λ l. IsKept l.items.entries l.bases };
}

impl Lists {
    /// No lists, and no room for any. It takes no memory.
    pub(crate) fn none(alloc: Global, hasher: RandomState) -> Lists
        ensures { result.lists ≡ finite.empty }
    {
        Lists {
            items: IndexMap::with_hasher(alloc, hasher),
            bases: Slab::new(alloc),
            near: Near::none(),
        }
    }

    /// Makes room for at least `count` further lists.
    pub(crate) fn reserve(&mut self, count: usize) -> Result<(), NoMemory>
        ensures lists { self.new.lists ≡ self.old.lists }
        ensures ok { OnOk result (count ≤ self.new.spare) }
        ensures spare { self.old.spare ≤ self.new.spare }
    {
        make_room(&mut self.items, &mut self.bases, count)
    }

    /// The list of a key, if there is one.
    pub(crate) fn get(&self, key: &Key) -> Option<AclAt<'_>>
        ensures { result ≡ finite.get self.now.lists key.now }
    {
        match self.items.get(key) {
            Some(share) => Some(lend(&self.bases, share)),
            None => None,
        }
    }

    /// Puts a list in, in the place of the one that had its key. It takes no memory.
    pub(crate) fn put(&mut self, key: Key, acl: Acl)
        requires { 0 < self.old.spare }
        ensures lists { self.new.lists ≡ finite.insert self.old.lists key acl }
        ensures spare { self.old.spare ≤ self.new.spare + 1 }
    {
        take_out(&mut self.items, &mut self.bases, &key);
        put_new(&mut self.items, &mut self.bases, &mut self.near, key, acl);
    }

    /// Takes the list of a key out, if there is one. It takes no memory.
    pub(crate) fn take(&mut self, key: &Key)
        ensures lists { self.new.lists ≡ finite.remove self.old.lists key.now }
        ensures spare { self.old.spare ≤ self.new.spare }
    {
        take_out(&mut self.items, &mut self.bases, key);
    }

    /// Takes an actor out of every entry of every list. It takes no memory, and a look at each base and
    /// at each key.
    pub(crate) fn take_actor(&mut self, name: &Text)
        ensures lists { self.new.lists ≡ map_values (each_entry (without_actor name.now)) self.old.lists }
        ensures spare { self.old.spare ≤ self.new.spare }
    {
        forget_creator(&mut self.items, name);
        take_actor_from_each(&mut self.bases, name);
    }

    /// Takes a group out of every entry of every list. It takes no memory, and a look at each base.
    pub(crate) fn take_group(&mut self, name: &Text)
        ensures lists { self.new.lists ≡ map_values (each_entry (without_group name.now)) self.old.lists }
        ensures spare { self.old.spare ≤ self.new.spare }
    {
        take_group_from_each(&mut self.bases, name);
    }

    /// Equal lists with memory of their own, and room for no more.
    pub(crate) fn copy(&self, alloc: Global) -> Result<Lists, NoMemory>
        ensures { IfOk result (λ copy. copy.lists ≡ self.now.lists) }
    {
        let mut made = Lists::none(alloc, *self.items.hasher());
        add_copies(alloc, &self.items, &self.bases, &mut made).and(Ok(made))
    }

    // Puts a list in, with memory for it.
    fn add(&mut self, key: Key, acl: Acl) -> Result<(), NoMemory>
        ensures { OnOk result (self.new.lists ≡ finite.insert self.old.lists key acl) }
    {
        match self.reserve(1) {
            Ok(()) => {
                self.put(key, acl);
                Ok(())
            }
            Err(fault) => {
                drop(key);
                drop(acl);
                Err(fault)
            }
        }
    }
}

fn make_room(items: &mut Hashed, bases: &mut Bases, count: usize) -> Result<(), NoMemory>
    ensures entries { items.new.entries ≡ items.old.entries }
    ensures bases { bases.new ≡ record bases.old { capacity = bases.new.capacity } }
    ensures ok { OnOk result ((count ≤ spare items.new) × (count ≤ room bases.new)) }
    ensures spare { spare items.old ≤ spare items.new }
    ensures room { room bases.old ≤ room bases.new }
{
    items.reserve(count)?;
    bases.reserve(count)?;
    Ok(())
}

// The list of a key goes, if there is one, and its base where no other key uses it.
fn take_out(items: &mut Hashed, bases: &mut Bases, key: &Key)
    requires { IsKept items.old.entries bases.old }
    ensures kept { IsKept items.new.entries bases.new }
    ensures lists { seen bases.new items.new.entries ≡ finite.remove (seen bases.old items.old.entries) key.now }
    ensures absent { get same_key items.new key.now ≡ None }
    ensures spare { spare items.old ≤ spare items.new }
    ensures room { room bases.old ≤ room bases.new }
{
    if let Some(share) = items.swap_remove(key) {
        release(bases, share.base);
        drop(share);
    }
}

// A list comes under a key that has none.
fn put_new(items: &mut Hashed, bases: &mut Bases, near: &mut Near, key: Key, acl: Acl)
    requires kept { IsKept items.old.entries bases.old }
    requires absent { get same_key items.old key ≡ None }
    requires spare { 0 < spare items.old }
    requires room { HasRoomFor bases.old 1 }
    ensures kept { IsKept items.new.entries bases.new }
    ensures lists { seen bases.new items.new.entries ≡ finite.insert (seen bases.old items.old.entries) key acl }
    ensures spare { spare items.old ≤ spare items.new + 1 }
    ensures room { room bases.old ≤ room bases.new + 1 }
{
    let share = take_in(bases, near.of_container(key.kind), near.last(), acl);
    near.note(&key, share.base);
    drop(items.insert(key, share));
}

// An actor is no creator any more.
fn forget_creator(items: &mut Hashed, name: &Text)
    ensures entries { items.new.entries ≡ map (λ e. (e.0, share_left name.now e.1)) items.old.entries }
    ensures spare { spare items.old ≤ spare items.new }
{
    // Every share stays: `retain` reaches each where it stands.
    items.retain(|_, share| {
        share.forget(name);
        true
    });
}

// Adds a copy of each list to none.
fn add_copies(
    alloc: Global,
    items: &Hashed,
    bases: &Bases,
    made: &mut Lists,
) -> Result<(), NoMemory>
    requires kept { IsKept items.now.entries bases.now }
    requires none { made.old.lists ≡ finite.empty }
    ensures { OnOk result (made.new.lists ≡ seen bases.now items.now.entries) }
{
    for (key, share) in items {
        let acl = copy_of(alloc, bases, share)?;
        add_under(alloc, key, acl, made)?;
    }
    Ok(())
}

// Puts a list in under a copy of a key.
fn add_under(alloc: Global, key: &Key, acl: Acl, made: &mut Lists) -> Result<(), NoMemory>
    ensures { OnOk result (made.new.lists ≡ finite.insert made.old.lists key.now acl) }
{
    match key.copy(alloc) {
        Ok(copy) => made.add(copy, acl),
        Err(fault) => {
            drop(acl);
            Err(fault)
        }
    }
}
