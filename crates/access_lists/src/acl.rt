//! Access lists.
ghost use Rattle.std.specs.Prelude.{◌≡◌, IfOk, OnOk};
ghost use Rattle.access_lists.specs.Forms.{IsAcl, IsEntry};
ghost use Rattle.access_lists.specs.Acls.{entry_of, each_entry, with_actor, without_actor, without_group};

use crate::perm::Perm;
use doc_tree::{NoMemory, Text};
use membership::TextSet;
use std::alloc::Global;

/// Who has one permission.
#[derive(Drop)]
pub struct Entry {
    /// Users and clients, in the order of their bytes and each once.
    pub actors: TextSet,
    /// Groups, likewise.
    pub groups: TextSet,
}

/// An access list: an entry for each permission.
#[derive(Drop)]
pub struct Acl {
    pub create: Entry,
    pub read: Entry,
    pub update: Entry,
    pub delete: Entry,
    pub grant: Entry,
}

impl Entry {
    /// Neither actors nor groups. It takes no memory.
    fn none(alloc: Global) -> Entry {
        Entry {
            actors: TextSet::new(alloc),
            groups: TextSet::new(alloc),
        }
    }

    /// An equal entry with memory of its own.
    pub fn copy(&self, alloc: Global) -> Result<Entry, NoMemory>
        ensures { IfOk result (λ entry. entry ≡ self.now) }
    {
        Ok(Entry {
            actors: self.actors.copy(alloc)?,
            groups: self.groups.copy(alloc)?,
        })
    }

    fn known(&self)
        ensures { IsEntry self.now }
    {
        let _actors = self.actors.as_slice();
        let _groups = self.groups.as_slice();
    }

    fn with_actor(&self, alloc: Global, name: &Text) -> Result<Entry, NoMemory>
        ensures { IfOk result (λ entry. entry ≡ with_actor name.now self.now) }
    {
        Ok(Entry {
            actors: self.actors.with(alloc, name)?,
            groups: self.groups.copy(alloc)?,
        })
    }
}

impl Acl {
    /// The entry of a permission.
    pub fn entry(&self, perm: Perm) -> &Entry
        ensures { result.now ≡ entry_of perm self.now }
    {
        match perm {
            Perm::Create => &self.create,
            Perm::Read => &self.read,
            Perm::Update => &self.update,
            Perm::Delete => &self.delete,
            Perm::Grant => &self.grant,
        }
    }

    /// An access list in which nobody has a permission. It takes no memory.
    pub(crate) fn none(alloc: Global) -> Acl {
        Acl {
            create: Entry::none(alloc),
            read: Entry::none(alloc),
            update: Entry::none(alloc),
            delete: Entry::none(alloc),
            grant: Entry::none(alloc),
        }
    }

    /// An equal access list with memory of its own.
    pub fn copy(&self, alloc: Global) -> Result<Acl, NoMemory>
        ensures { IfOk result (λ acl. acl ≡ self.now) }
    {
        let mut acl = Acl::none(alloc);
        copy_entries(alloc, self, &mut acl).and(Ok(acl))
    }

    /// This access list with one more actor in each entry, as who creates an object is in its list.
    pub fn with_actor(&self, alloc: Global, name: &Text) -> Result<Acl, NoMemory>
        ensures { IfOk result (λ acl. acl ≡ each_entry (with_actor name.now) self.now) }
    {
        let mut acl = Acl::none(alloc);
        copy_with_actor(alloc, self, name, &mut acl).and(Ok(acl))
    }

    /// The lists of its entries rise: that is kept by their type, and told here.
    pub(crate) fn known(&self)
        ensures { IsAcl self.now }
    {
        self.create.known();
        self.read.known();
        self.update.known();
        self.delete.known();
        self.grant.known();
    }

    /// Takes an actor out of every entry, as one that is deleted goes. It takes no memory.
    pub fn take_actor(&mut self, name: &Text)
        ensures left { self.new ≡ each_entry (without_actor name.now) self.old }
        ensures rising { IsAcl self.old }
    {
        self.known();
        self.create.actors.take_out(name);
        self.read.actors.take_out(name);
        self.update.actors.take_out(name);
        self.delete.actors.take_out(name);
        self.grant.actors.take_out(name);
    }

    /// Takes a group out of every entry, as one that is deleted goes. It takes no memory.
    pub fn take_group(&mut self, name: &Text)
        ensures { self.new ≡ each_entry (without_group name.now) self.old }
    {
        self.create.groups.take_out(name);
        self.read.groups.take_out(name);
        self.update.groups.take_out(name);
        self.delete.groups.take_out(name);
        self.grant.groups.take_out(name);
    }
}

// Copies each entry to the other list.
fn copy_entries(alloc: Global, from: &Acl, to: &mut Acl) -> Result<(), NoMemory>
    ensures { OnOk result (to.new ≡ from.now) }
{
    copy_entry(alloc, &from.create, &mut to.create)?;
    copy_entry(alloc, &from.read, &mut to.read)?;
    copy_entry(alloc, &from.update, &mut to.update)?;
    copy_entry(alloc, &from.delete, &mut to.delete)?;
    copy_entry(alloc, &from.grant, &mut to.grant)
}

fn copy_entry(alloc: Global, from: &Entry, to: &mut Entry) -> Result<(), NoMemory>
    ensures { OnOk result (to.new ≡ from.now) }
{
    *to = from.copy(alloc)?;
    Ok(())
}

// Copies each entry to the other list, with one more actor.
fn copy_with_actor(alloc: Global, from: &Acl, name: &Text, to: &mut Acl) -> Result<(), NoMemory>
    ensures { OnOk result (to.new ≡ each_entry (with_actor name.now) from.now) }
{
    add_actor(alloc, &from.create, name, &mut to.create)?;
    add_actor(alloc, &from.read, name, &mut to.read)?;
    add_actor(alloc, &from.update, name, &mut to.update)?;
    add_actor(alloc, &from.delete, name, &mut to.delete)?;
    add_actor(alloc, &from.grant, name, &mut to.grant)
}

fn add_actor(alloc: Global, from: &Entry, name: &Text, to: &mut Entry) -> Result<(), NoMemory>
    ensures { OnOk result (to.new ≡ with_actor name.now from.now) }
{
    *to = from.with_actor(alloc, name)?;
    Ok(())
}
