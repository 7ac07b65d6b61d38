//! Sets of names, with room for more.
ghost use Rattle.std.specs.Prelude.{◌≡◌, ◌+◌, ◌<◌, ◌≤◌, IfOk, IsTrue, OnOk, true};
ghost use Rattle.std.specs.FinSet as set;
ghost use Rattle.indexmap.specs.IndexSet.{spare};
ghost use Rattle.doc_tree.specs.Valid.{InOrder};
ghost use Rattle.membership.specs.MemberNames.{listed_names};
ghost use Rattle.membership.specs.NameSets.{seen};

use crate::text_set::TextSet;
use doc_tree::{Name, Names, NoMemory, Text, Texts};
use indexmap::IndexSet;
use std::alloc::Global;
use std::hash::RandomState;
use std::marker::Model;

/// Names by their hashes.
type Hashed = IndexSet<Text, RandomState>;

/// A set of names, with room for a number of further ones. Contracts see the finite set, and the room.
#[derive(Drop)]
pub(crate) struct NameSet {
    items: Hashed,
}

impl Model for NameSet {
    ghost use Rattle.membership.specs.Rooms.{KeptNames, kept_names_code};

    ghost Value = { KeptNames };

    ghost coded = { kept_names_code };

    ghost use Rattle.indexmap.specs.IndexSet.{spare};
    ghost use Rattle.membership.specs.NameSets.{seen};

    ghost view = { λ s. record { names = seen s.items.keys; spare = spare s.items } };
}

impl NameSet {
    /// No names, and no room for any. It takes no memory.
    pub(crate) fn none(alloc: Global, hasher: RandomState) -> NameSet
        ensures { result.names ≡ set.empty }
    {
        NameSet {
            items: IndexSet::with_hasher(alloc, hasher),
        }
    }

    /// The set of a list of names.
    pub(crate) fn of(alloc: Global, hasher: RandomState, names: &Names) -> Result<NameSet, NoMemory>
        ensures { IfOk result (λ s. s.names ≡ set.from_list names.now) }
    {
        let mut items = IndexSet::with_capacity_and_hasher(alloc, names.len(), hasher)?;
        add_names(alloc, names.as_slice(), &mut items).and(Ok(NameSet { items }))
    }

    /// The set of copies of some texts.
    pub(crate) fn with(
        alloc: Global,
        hasher: RandomState,
        names: &[Text],
    ) -> Result<NameSet, NoMemory>
        ensures { IfOk result (λ s. s.names ≡ set.from_list names.now) }
    {
        let mut items = IndexSet::with_capacity_and_hasher(alloc, names.len(), hasher)?;
        add_texts(alloc, names, &mut items).and(Ok(NameSet { items }))
    }

    /// An equal set with memory of its own, and room for no more.
    pub(crate) fn copy(&self, alloc: Global) -> Result<NameSet, NoMemory>
        ensures { IfOk result (λ s. s.names ≡ self.now.names) }
    {
        NameSet::with(alloc, *self.items.hasher(), self.items.as_slice())
    }

    /// Copies the names of a list in place of its own.
    pub(crate) fn copy_list(
        &mut self,
        alloc: Global,
        hasher: RandomState,
        names: &Names,
    ) -> Result<(), NoMemory>
        ensures { OnOk result (self.new.names ≡ set.from_list names.now) }
    {
        *self = NameSet::of(alloc, hasher, names)?;
        Ok(())
    }

    /// Copies some texts in place of its own names.
    pub(crate) fn copy_texts(
        &mut self,
        alloc: Global,
        hasher: RandomState,
        names: &[Text],
    ) -> Result<(), NoMemory>
        ensures { OnOk result (self.new.names ≡ set.from_list names.now) }
    {
        *self = NameSet::with(alloc, hasher, names)?;
        Ok(())
    }

    /// Copies the names of another set in place of its own.
    pub(crate) fn copy_from(&mut self, alloc: Global, other: &NameSet) -> Result<(), NoMemory>
        ensures { OnOk result (self.new.names ≡ other.now.names) }
    {
        *self = other.copy(alloc)?;
        Ok(())
    }

    /// What hashes its names.
    pub(crate) fn hasher(&self) -> RandomState {
        *self.items.hasher()
    }

    /// The names, in the order of their bytes.
    pub(crate) fn names(&self, alloc: Global) -> Result<Texts, NoMemory>
        ensures value { IfOk result (λ names. names ≡ listed_names self.now.names) }
        ensures order { IfOk result InOrder }
    {
        Ok(TextSet::of_copies(alloc, self.items.as_slice())?.into_texts())
    }

    /// Whether it has no names.
    pub(crate) fn is_empty(&self) -> bool
        ensures { result ≡ true → self.now.names ≡ set.empty }
    {
        self.items.is_empty()
    }

    /// Whether a name is in the set. It is looked for by its hash, where there are any.
    pub(crate) fn contains(&self, name: &Text) -> bool
        ensures { result ≡ set.contains self.now.names name.now }
    {
        self.items.contains(name)
    }

    /// Whether another set has the same names.
    pub(crate) fn is_same(&self, other: &NameSet) -> bool
        ensures { IsTrue result → self.now.names ≡ other.now.names }
    {
        self.items == other.items
    }

    /// Makes room for at least `count` further names.
    pub(crate) fn reserve(&mut self, count: usize) -> Result<(), NoMemory>
        ensures names { self.new.names ≡ self.old.names }
        ensures ok { OnOk result (count ≤ self.new.spare) }
        ensures spare { self.old.spare ≤ self.new.spare }
    {
        self.items.reserve(count)?;
        Ok(())
    }

    /// Puts a name in. It takes no memory.
    pub(crate) fn insert(&mut self, name: Text)
        requires { 0 < self.old.spare }
        ensures names { self.new.names ≡ set.insert self.old.names name }
        ensures spare { self.old.spare ≤ self.new.spare + 1 }
    {
        put(&mut self.items, name);
    }

    /// Takes a name out, if it is there. It takes no memory.
    pub(crate) fn remove(&mut self, name: &Text)
        ensures names { self.new.names ≡ set.remove self.old.names name.now }
        ensures spare { self.old.spare ≤ self.new.spare }
    {
        take(&mut self.items, name);
    }
}

fn add_names(alloc: Global, names: &[Name], items: &mut Hashed) -> Result<(), NoMemory>
    requires { seen items.old.keys ≡ set.empty }
    ensures { OnOk result (seen items.new.keys ≡ set.from_list names.now) }
{
    for name in names {
        add(items, name.as_text().copy(alloc)?)?;
    }
    Ok(())
}

fn add_texts(alloc: Global, names: &[Text], items: &mut Hashed) -> Result<(), NoMemory>
    requires { seen items.old.keys ≡ set.empty }
    ensures { OnOk result (seen items.new.keys ≡ set.from_list names.now) }
{
    for name in names {
        add(items, name.copy(alloc)?)?;
    }
    Ok(())
}

fn add(items: &mut Hashed, name: Text) -> Result<(), NoMemory>
    ensures { OnOk result (seen items.new.keys ≡ set.insert (seen items.old.keys) name) }
{
    items.insert(name)?;
    Ok(())
}

fn put(items: &mut Hashed, name: Text)
    requires { 0 < spare items.old }
    ensures names { seen items.new.keys ≡ set.insert (seen items.old.keys) name }
    ensures spare { spare items.old ≤ spare items.new + 1 }
{
    let _ = items.insert(name);
}

fn take(items: &mut Hashed, name: &Text)
    ensures names { seen items.new.keys ≡ set.remove (seen items.old.keys) name.now }
    ensures spare { spare items.old ≤ spare items.new }
{
    let _ = items.swap_remove(name);
}
