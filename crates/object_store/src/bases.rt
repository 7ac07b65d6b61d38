//! Access lists that keys share, under numbers.
ghost use Rattle.std.specs.Prelude.{◌≡◌, ◌<◌, IfErr, IfOk, IsTrue, length, map};
ghost use Rattle.slab.specs.Slab.{ContainsKey, HasRoomFor, get};
ghost use Rattle.access_lists.specs.Acls.{each_entry, with_creator, without_actor, without_group};
ghost use Rattle.access_lists.specs.Creators.{is_creator};
ghost use Rattle.object_store.specs.Bases.{Adds, AreAcls, CanAdd, Changes, Loses, acl_at, list_of, share_left, uses_at};

use access_lists::{Acl, AclAt};
use doc_tree::{NoMemory, Text};
use slab::Slab;
use std::alloc::Global;

/// An access list, and how many keys use it.
#[derive(Drop)]
pub(crate) struct Base {
    acl: Acl,
    uses: usize,
}

/// Access lists under numbers, each used by a key or more.
pub(crate) type Bases = Slab<Base>;

/// The access list of a key: the number of its base, and who created the object, if anybody did, who is
/// one more actor in each entry.
#[derive(Drop)]
pub(crate) struct Share {
    creator: Option<Text>,
    pub(crate) base: usize,
}

impl Share {
    /// Takes the creator out, where it is this actor. It takes no memory.
    pub(crate) fn forget(&mut self, name: &Text)
        ensures { self.new ≡ share_left name.now self.old }
    {
        if is_by(&self.creator, name) {
            self.creator = None;
        }
    }
}

fn is_by(creator: &Option<Text>, name: &Text) -> bool
    ensures { result ≡ is_creator creator.now name.now }
{
    match creator {
        Some(creator) => name == creator,
        None => false,
    }
}

/// The list of a share.
pub(crate) fn lend<'a>(bases: &'a Bases, share: &'a Share) -> AclAt<'a>
    requires { ContainsKey bases.now share.now.base }
    ensures { result ≡ list_of bases.now share.now }
{
    AclAt::created(share.creator.as_ref(), &bases[share.base].acl)
}

/// Takes a list in, as a share of one of two bases where it is that base or is created over it, and
/// else as a base of its own. It takes no memory.
pub(crate) fn take_in(bases: &mut Bases, near: usize, last: usize, acl: Acl) -> Share
    requires { HasRoomFor bases.old 1 }
    ensures adds { Adds bases.old bases.new result.base }
    ensures list { list_of bases.new result ≡ acl }
{
    match share_of(bases, near, acl) {
        Ok(share) => share,
        Err(acl) => share_last(bases, last, acl),
    }
}

fn share_last(bases: &mut Bases, last: usize, acl: Acl) -> Share
    requires { HasRoomFor bases.old 1 }
    ensures adds { Adds bases.old bases.new result.base }
    ensures list { list_of bases.new result ≡ acl }
{
    match share_of(bases, last, acl) {
        Ok(share) => share,
        Err(acl) => alone(bases, acl),
    }
}

// A list as a share of this base, if it is one. Any other list is handed back.
fn share_of(bases: &mut Bases, number: usize, acl: Acl) -> Result<Share, Acl>
    ensures adds { IfOk result (λ share. Adds bases.old bases.new share.base) }
    ensures list { IfOk result (λ share. list_of bases.new share ≡ acl) }
    ensures other { IfErr result (λ other. other ≡ acl) }
    ensures same { IfErr result (λ _. bases.new ≡ bases.old) }
{
    match creator_over(bases, number, acl) {
        Ok(creator) => {
            add_use(bases, number);
            Ok(Share {
                creator,
                base: number,
            })
        }
        Err(acl) => Err(acl),
    }
}

fn creator_over(bases: &Bases, number: usize, acl: Acl) -> Result<Option<Text>, Acl>
    ensures base { IfOk result (λ _. CanAdd bases.now number) }
    ensures over { IfOk result (λ creator. with_creator creator (acl_at bases.now number) ≡ acl) }
    ensures other { IfErr result (λ other. other ≡ acl) }
{
    match bases.get(number) {
        Some(base) if base.uses < usize::MAX => acl.creator_over(&base.acl),
        _ => Err(acl),
    }
}

fn add_use(bases: &mut Bases, number: usize)
    requires { CanAdd bases.old number }
    ensures adds { Adds bases.old bases.new number }
    ensures acl { acl_at bases.new number ≡ acl_at bases.old number }
{
    bases[number].uses += 1;
}

// A list as a base of its own.
fn alone(bases: &mut Bases, acl: Acl) -> Share
    requires { HasRoomFor bases.old 1 }
    ensures adds { Adds bases.old bases.new result.base }
    ensures list { list_of bases.new result ≡ acl }
{
    Share {
        creator: None,
        base: bases.insert_reserved(Base { acl, uses: 1 }),
    }
}

/// A base is used once less. It goes where no key uses it any more.
pub(crate) fn release(bases: &mut Bases, number: usize)
    requires { 0 < uses_at bases.old number }
    ensures { Loses bases.old bases.new number }
{
    if bases[number].uses > 1 {
        bases[number].uses -= 1;
    } else {
        drop(bases.remove(number));
    }
}

/// Takes an actor out of every entry of each base. It takes no memory.
pub(crate) fn take_actor_from_each(bases: &mut Bases, name: &Text)
    ensures changes { Changes (each_entry (without_actor name.now)) bases.old bases.new }
    ensures rising { AreAcls bases.old }
{
    // Every base stays: `retain` reaches each where it stands.
    bases.retain(|_, base| {
        base.acl.take_actor(name);
        true
    });
}

/// Takes a group out of every entry of each base. It takes no memory.
pub(crate) fn take_group_from_each(bases: &mut Bases, name: &Text)
    ensures { Changes (each_entry (without_group name.now)) bases.old bases.new }
{
    // Every base stays, as above.
    bases.retain(|_, base| {
        base.acl.take_group(name);
        true
    });
}

/// The list of a share with memory of its own.
pub(crate) fn copy_of(alloc: Global, bases: &Bases, share: &Share) -> Result<Acl, NoMemory>
    requires { ContainsKey bases.now share.now.base }
    ensures { IfOk result (λ acl. acl ≡ list_of bases.now share.now) }
{
    lend(bases, share).copy(alloc)
}
