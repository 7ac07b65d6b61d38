//! Access lists that are lent, where lists share what is alike.
ghost use Rattle.std.specs.Prelude.{◌≡◌, IfOk, option_copied};
ghost use Rattle.access_lists.specs.Acls.{each_entry, with_actor, with_creator};

use crate::acl::Acl;
use doc_tree::{NoMemory, Text};
use std::alloc::Global;
use std::marker::Model;

/// An access list that is lent: a base, which other lists may share, and in each of its entries who
/// created the object as one more actor, if anybody did. Contracts see the whole list.
#[derive(Drop)]
pub struct AclAt<'a> {
    pub(crate) creator: Option<&'a Text>,
    pub(crate) base: &'a Acl,
}

impl<'a> Model for AclAt<'a> {
    ghost use Rattle.std.specs.Prelude.{option_copied};
    ghost use Rattle.access_lists.specs.declared.acl.Acl.{Acl};
    ghost use Rattle.access_lists.specs.Acls.{with_creator};

    ghost Value = { Acl };

    ghost view = { λ l. with_creator (option_copied l.creator) l.base.now };
}

impl<'a> AclAt<'a> {
    /// A list that nobody shares. It takes no memory.
    pub fn of(acl: &'a Acl) -> AclAt<'a>
        ensures { result ≡ acl.now }
    {
        AclAt {
            creator: None,
            base: acl,
        }
    }

    /// A base with its creator, if there is one, as one more actor in each entry. It takes no memory.
    pub fn created(creator: Option<&'a Text>, base: &'a Acl) -> AclAt<'a>
        ensures { result ≡ with_creator (option_copied creator.entry) base.now }
    {
        AclAt { creator, base }
    }

    /// The list with memory of its own.
    pub fn copy(&self, alloc: Global) -> Result<Acl, NoMemory>
        ensures { IfOk result (λ acl. acl ≡ self.now) }
    {
        match self.creator {
            None => self.base.copy(alloc),
            Some(name) => self.base.with_actor(alloc, name),
        }
    }

    /// The list with memory of its own and one more actor in each entry, as who creates an object is in
    /// its list.
    pub fn with_actor(&self, alloc: Global, name: &Text) -> Result<Acl, NoMemory>
        ensures { IfOk result (λ acl. acl ≡ each_entry (with_actor name.now) self.now) }
    {
        match self.creator {
            None => self.base.with_actor(alloc, name),
            Some(creator) => with_both(alloc, self.base, creator, name),
        }
    }
}

// A base with two more actors in each entry.
fn with_both(alloc: Global, base: &Acl, one: &Text, other: &Text) -> Result<Acl, NoMemory>
    ensures { IfOk result (λ acl. acl ≡ each_entry (with_actor other.now) (each_entry (with_actor one.now) base.now)) }
{
    let longer = base.with_actor(alloc, one)?;
    let whole = longer.with_actor(alloc, other);
    drop(longer);
    whole
}
