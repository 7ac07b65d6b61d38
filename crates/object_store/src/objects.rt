//! The objects of an organisation and their access lists, by their keys.
ghost use Rattle.std.specs.Prelude.{◌≡◌, ◌+◌, ◌<◌, ◌≤◌, IfOk, None, OnOk, cond, option_copied, option_map, is_some, string_bytes};
ghost use Rattle.std.specs.FinMap as finite;
ghost use Rattle.std.specs.List.{filter_map};
ghost use Rattle.indexmap.specs.IndexMap.{get, spare};
ghost use Rattle.doc_tree.specs.Valid.{InOrder};
ghost use Rattle.membership.specs.MapValues.{map_values};
ghost use Rattle.access_lists.specs.Acls.{each_entry, without_actor, without_group};
ghost use Rattle.object_store.specs.declared.key.Key.{Key as AKey};
ghost use Rattle.object_store.specs.Keys.{key, same_key};
ghost use Rattle.object_store.specs.Kept.{found, IsReady};
ghost use Rattle.object_store.specs.Objects.{names_in};
ghost use Rattle.object_store.specs.Items.{behind_front, item_front, item_name, ids_in};

use crate::item::id_in;
use crate::items::{add_settled_names, find_item, find_settled, has_slash};
use crate::key::Key;
use crate::late::{Late, add_late_ids, add_late_names, copy_late, seek, seek_item};
use crate::listing::in_order;
use crate::lists::Lists;
use crate::shelves::{Shelves, add_names, copy_shelves, make_room, put_on, take};
use crate::shelving::shelved;
use access_lists::{Acl, AclAt};
use compact_json::CompactJson;
use doc_tree::{Kind, NoMemory, Steps, Text, Texts};
use indexmap::IndexMap;
use std::alloc::Global;
use std::collections::BTreeSet;
use std::hash::RandomState;
use std::marker::Model;
use std::sync::ledger::Ledger;

/// Objects and access lists by the objects' keys, with room for a number of further ones of each.
/// Contracts see the finite map of the objects' documents, the finite map of the lists, and the room.
/// What is done with objects leaves the lists, and the other way round: an object may have none, and
/// containers have lists and no bodies.
///
/// Each kind has a shelf, and so has each bag for its items, so that a listing looks at one shelf
/// alone. What is put in waits beside the shelves, where there is room for it whatever its key, and
/// goes to its shelf when room is made next: room is made for few objects at a time.
#[derive(Drop)]
pub struct Objects {
    late: Late,
    shelves: Shelves,
    lists: Lists,
}

impl Model for Objects {
    ghost use Rattle.object_store.specs.Objects.{Store, store_code, smaller};

    ghost Value = { Store };

    ghost coded = { store_code };

    ghost use Rattle.indexmap.specs.IndexMap.{spare};
    ghost use Rattle.object_store.specs.Kept.{objects_in};

    ghost view = { λ m. record { objects = objects_in m.late m.shelves; lists = m.lists.lists; spare = smaller (spare m.late) m.lists.spare } };
}

impl Objects {
    /// No objects, no lists, and no room for any. It takes no memory.
    pub fn none(alloc: Global, hasher: RandomState) -> Objects
        ensures objects { result.objects ≡ finite.empty }
        ensures lists { result.lists ≡ finite.empty }
    {
        Objects {
            late: IndexMap::with_hasher(alloc, hasher),
            shelves: IndexMap::with_hasher(alloc, hasher),
            lists: Lists::none(alloc, hasher),
        }
    }

    /// Makes room for at least `count` further objects, and as many lists.
    pub fn reserve(&mut self, count: usize) -> Result<(), NoMemory>
        ensures objects { self.new.objects ≡ self.old.objects }
        ensures lists { self.new.lists ≡ self.old.lists }
        ensures ok { OnOk result (count ≤ self.new.spare) }
        ensures spare { self.old.spare ≤ self.new.spare }
    {
        settle(&mut self.late, &mut self.shelves)?;
        self.late.reserve(count)?;
        self.lists.reserve(count)?;
        Ok(())
    }

    /// The access list of this key, if there is one. It counts no step and takes no memory.
    pub fn acl(&self, key: &Key) -> Option<AclAt<'_>>
        ensures { result ≡ finite.get self.now.lists key.now }
    {
        self.lists.get(key)
    }

    /// Puts an access list in, in the place of the one that had its key. It takes no memory: where the list
    /// is that of the container of its kind, or that with one more actor in each entry, it is kept as such.
    pub fn put_acl(&mut self, key: Key, acl: Acl)
        requires { 0 < self.old.spare }
        ensures lists { self.new.lists ≡ finite.insert self.old.lists key acl }
        ensures objects { self.new.objects ≡ self.old.objects }
        ensures spare { self.old.spare ≤ self.new.spare + 1 }
    {
        self.lists.put(key, acl);
    }

    /// Takes the access list of this key out, if there is one. It takes no memory.
    pub fn take_acl(&mut self, key: &Key)
        ensures lists { self.new.lists ≡ finite.remove self.old.lists key.now }
        ensures objects { self.new.objects ≡ self.old.objects }
        ensures spare { self.old.spare ≤ self.new.spare }
    {
        self.lists.take(key);
    }

    /// Takes an actor out of every entry of every access list, as one that is deleted goes. It takes no
    /// memory, and a look at each key and at each list that keys share.
    pub fn take_actor(&mut self, name: &Text)
        ensures lists { self.new.lists ≡ map_values (each_entry (without_actor name.now)) self.old.lists }
        ensures objects { self.new.objects ≡ self.old.objects }
        ensures spare { self.old.spare ≤ self.new.spare }
    {
        self.lists.take_actor(name);
    }

    /// Takes a group out of every entry of every access list, as one that is deleted goes. It takes no
    /// memory, and a look at each list that keys share.
    pub fn take_group(&mut self, name: &Text)
        ensures lists { self.new.lists ≡ map_values (each_entry (without_group name.now)) self.old.lists }
        ensures objects { self.new.objects ≡ self.old.objects }
        ensures spare { self.old.spare ≤ self.new.spare }
    {
        self.lists.take_group(name);
    }

    /// Puts an object in, and gives back the one that had its key, if there was one. It takes no
    /// memory.
    pub fn put(&mut self, key: Key, object: CompactJson) -> Option<CompactJson>
        requires { 0 < self.old.spare }
        ensures objects { self.new.objects ≡ finite.insert self.old.objects key object }
        ensures before { result ≡ finite.get self.old.objects key }
        ensures lists { self.new.lists ≡ self.old.lists }
        ensures spare { self.old.spare ≤ self.new.spare + 1 }
    {
        let before = take_from(&mut self.late, &mut self.shelves, &key);
        drop(self.late.insert(key, object));
        before
    }

    /// Takes the object of this key out, if there is one, and gives it back. It takes no memory.
    pub fn take_out(&mut self, key: &Key) -> Option<CompactJson>
        ensures objects { self.new.objects ≡ finite.remove self.old.objects key.now }
        ensures taken { result ≡ finite.get self.old.objects key.now }
        ensures lists { self.new.lists ≡ self.old.lists }
        ensures spare { self.old.spare ≤ self.new.spare }
    {
        take_from(&mut self.late, &mut self.shelves, key)
    }

    /// The object of this key, if there is one. It counts one step: no other call looks at a body.
    pub fn read<L: Ledger>(&self, key: &Key, steps: &mut Steps<L>) -> Option<&CompactJson>
        ensures object { option_copied result ≡ finite.get self.now.objects key.now }
        ensures ticks { steps.new ≡ steps.old + 1 }
    {
        steps.tick();
        match self.late.get(key) {
            Some(object) => Some(object),
            None => find_settled(&self.shelves, key.kind, key.name.as_str()),
        }
    }

    /// The object of this kind and name, which is not copied. It counts one step.
    pub fn look_up<L: Ledger>(
        &self,
        kind: Kind,
        name: &str,
        steps: &mut Steps<L>,
    ) -> Option<&CompactJson>
        ensures object { option_copied result ≡ finite.get self.now.objects (key kind name.now) }
        ensures ticks { steps.new ≡ steps.old + 1 }
    {
        steps.tick();
        look(&self.late, &self.shelves, kind, name)
    }

    /// Whether there is an object of this kind and name. It looks at no body and copies no name.
    pub fn has(&self, kind: Kind, name: &str) -> bool
        ensures { result ≡ is_some (finite.get self.now.objects (key kind name.now)) }
    {
        look(&self.late, &self.shelves, kind, name).is_some()
    }

    /// The item of this id in this bag, whose name is not joined. It counts one step.
    pub fn item<L: Ledger>(&self, bag: &str, id: &str, steps: &mut Steps<L>) -> Option<&CompactJson>
        ensures object { option_copied result ≡ finite.get self.now.objects (key Kind.Item (item_name bag.now id.now)) }
        ensures ticks { steps.new ≡ steps.old + 1 }
    {
        steps.tick();
        look_item(&self.late, &self.shelves, bag, id)
    }

    /// Whether a bag has an item of this id. It looks at no body and joins no name.
    pub fn has_item(&self, bag: &str, id: &str) -> bool
        ensures { result ≡ is_some (finite.get self.now.objects (key Kind.Item (item_name bag.now id.now))) }
    {
        look_item(&self.late, &self.shelves, bag, id).is_some()
    }

    /// The names of the objects of a kind, in the order of their bytes. It looks at no body.
    pub fn names(&self, alloc: Global, kind: Kind) -> Result<Texts, NoMemory>
        ensures value { IfOk result (λ names. names ≡ names_in kind self.now.objects) }
        ensures order { IfOk result InOrder }
    {
        let mut names = BTreeSet::new(alloc);
        add_late_names(alloc, &self.late, kind, &mut names)?;
        add_settled_names(alloc, &self.shelves, kind, &mut names)?;
        in_order(alloc, names)
    }

    /// The ids of a bag's items, in the order of their bytes. It looks at no body.
    pub fn ids(&self, alloc: Global, bag: &str) -> Result<Texts, NoMemory>
        ensures value { IfOk result (λ ids. ids ≡ ids_in bag.now self.now.objects) }
        ensures order { IfOk result InOrder }
    {
        if has_slash(bag) {
            // No bag's name has a slash, so no request comes here.
            let names = self.names(alloc, Kind::Item)?;
            return ids_among(alloc, bag, names.as_slice());
        }
        let mut ids = BTreeSet::new(alloc);
        add_late_ids(alloc, &self.late, bag, &mut ids)?;
        add_names(alloc, &self.shelves, bag, &mut ids)?;
        in_order(alloc, ids)
    }

    /// Equal objects and lists with memory of their own, and room for no more.
    pub fn copy(&self, alloc: Global) -> Result<Objects, NoMemory>
        ensures objects { IfOk result (λ o. o.objects ≡ self.now.objects) }
        ensures lists { IfOk result (λ o. o.lists ≡ self.now.lists) }
    {
        Ok(Objects {
            late: copy_late(alloc, &self.late)?,
            shelves: copy_shelves(alloc, *self.late.hasher(), &self.shelves)?,
            lists: self.lists.copy(alloc)?,
        })
    }
}

// The object of this kind and name: what came late goes before what is on the shelf.
fn look<'a>(late: &'a Late, shelves: &'a Shelves, kind: Kind, name: &str) -> Option<&'a CompactJson>
    ensures { option_copied result ≡ found late.now shelves.now (key kind name.now) }
{
    match seek(late, kind, name) {
        Some(object) => Some(object),
        None => find_settled(shelves, kind, name),
    }
}

fn look_item<'a>(
    late: &'a Late,
    shelves: &'a Shelves,
    bag: &str,
    id: &str,
) -> Option<&'a CompactJson>
    ensures { option_copied result ≡ found late.now shelves.now (key Kind.Item (item_name bag.now id.now)) }
{
    match seek_item(late, bag, id) {
        Some(object) => Some(object),
        None => find_item(shelves, bag, id),
    }
}

fn take_from(late: &mut Late, shelves: &mut Shelves, key: &Key) -> Option<CompactJson>
    ensures taken { result ≡ found late.old shelves.old key.now }
    ensures left { (k : AKey) → found late.new shelves.new k ≡ cond (same_key key.now k) None (found late.old shelves.old k) }
    ensures spare { spare late.old ≤ spare late.new }
{
    let waiting = take_late(late, key);
    let (word, name) = shelved(key.kind, key.name.as_str());
    let settled = take(shelves, word, name);
    waiting.or(settled)
}

// The object of this key goes where it came late. Where none did, nothing is hashed.
fn take_late(late: &mut Late, key: &Key) -> Option<CompactJson>
    ensures taken { result ≡ get same_key late.old key.now }
    ensures left { (k : AKey) → get same_key late.new k ≡ cond (same_key key.now k) None (get same_key late.old k) }
    ensures spare { spare late.old ≤ spare late.new }
{
    if late.is_empty() {
        return None;
    }
    late.swap_remove(key)
}

// Each object that came late goes to its shelf.
fn settle(late: &mut Late, shelves: &mut Shelves) -> Result<(), NoMemory>
    ensures same { (k : AKey) → found late.new shelves.new k ≡ found late.old shelves.old k }
    ensures spare { spare late.old ≤ spare late.new }
{
    for _ in 0..late.len() {
        settle_last(late, shelves)?;
    }
    Ok(())
}

fn settle_last(late: &mut Late, shelves: &mut Shelves) -> Result<(), NoMemory>
    ensures same { (k : AKey) → found late.new shelves.new k ≡ found late.old shelves.old k }
    ensures spare { spare late.old ≤ spare late.new }
{
    let alloc = *late.allocator();
    let hasher = *late.hasher();
    let Some((key, _)) = late.last() else {
        return Ok(());
    };
    let (word, name) = shelved(key.kind, key.name.as_str());
    let name = String::from_str(alloc, name)?;
    make_room(shelves, alloc, hasher, word)?;
    move_last(late, shelves, name);
    Ok(())
}

// The last of those that came late goes to its shelf. It takes no memory.
fn move_last(late: &mut Late, shelves: &mut Shelves, name: String)
    requires { IsReady late.old shelves.old (string_bytes name) }
    ensures same { (k : AKey) → found late.new shelves.new k ≡ found late.old shelves.old k }
    ensures spare { spare late.old ≤ spare late.new }
{
    if let Some((key, object)) = late.pop() {
        let (word, _) = shelved(key.kind, key.name.as_str());
        put_on(shelves, word, name, object);
    }
}

fn ids_among(alloc: Global, bag: &str, names: &[Text]) -> Result<Texts, NoMemory>
    requires { InOrder names.now }
    ensures value { IfOk result (λ ids. ids ≡ filter_map (behind_front (item_front bag.now)) names.now) }
    ensures order { IfOk result InOrder }
{
    let mut ids = Texts::new(alloc);
    for name in names {
        if let Some(id) = id_in(bag, name.as_str()) {
            ids.push(Text::from_str(alloc, id)?)?;
        }
    }
    Ok(ids)
}
