//! One group.
ghost use Rattle.std.specs.Prelude.{◌≡◌, ◌+◌, ◌<◌, ◌≤◌, Some, IfOk, IsTrue, OnOk, false};
ghost use Rattle.std.specs.FinSet as set;
ghost use Rattle.membership.specs.Belonging.{is_member};
ghost use Rattle.membership.specs.Changes.{joined, left};
ghost use Rattle.doc_tree.specs.Valid.{InOrder};
ghost use Rattle.membership.specs.Lists.{members_in, members_of};
ghost use Rattle.membership.specs.MemberNames.{names_of};
ghost use Rattle.membership.specs.Members.{no_members};

use crate::lists::GroupRow;
use crate::member_kind::MemberKind;
use crate::name_set::NameSet;
use doc_tree::{NoMemory, Text, Texts};
use std::alloc::Global;
use std::hash::RandomState;
use std::marker::Model;

/// The members of a group, with room for a number of further ones of each kind. Contracts see three
/// finite sets, and the room.
#[derive(Drop)]
pub struct Group {
    users: NameSet,
    clients: NameSet,
    groups: NameSet,
}

impl Model for Group {
    ghost use Rattle.membership.specs.Rooms.{KeptGroup, kept_group_code, smaller};

    ghost Value = { KeptGroup };

    ghost coded = { kept_group_code };

    ghost view = { λ g. record {
      members = record { users = g.users.names; clients = g.clients.names; groups = g.groups.names };
      spare = smaller g.users.spare (smaller g.clients.spare g.groups.spare);
    } };
}

impl Group {
    /// No members, and no room for any. It takes no memory.
    pub(crate) fn none(alloc: Global, hasher: RandomState) -> Group
        ensures { result.members ≡ no_members }
    {
        Group {
            users: NameSet::none(alloc, hasher),
            clients: NameSet::none(alloc, hasher),
            groups: NameSet::none(alloc, hasher),
        }
    }

    /// The group that a row lists.
    pub fn of(alloc: Global, hasher: RandomState, row: &GroupRow) -> Result<Group, NoMemory>
        ensures { IfOk result (λ group. group.members ≡ members_in row.now) }
    {
        let mut group = Group::none(alloc, hasher);
        group.copy_row(alloc, hasher, row).and(Ok(group))
    }

    /// The group of these users, clients and groups within it, of which it keeps copies.
    pub fn with(
        alloc: Global,
        hasher: RandomState,
        users: &[Text],
        clients: &[Text],
        groups: &[Text],
    ) -> Result<Group, NoMemory>
        ensures { IfOk result (λ group. group.members ≡ members_of users.now clients.now groups.now) }
    {
        let mut group = Group::none(alloc, hasher);
        group
            .copy_texts(alloc, hasher, users, clients, groups)
            .and(Ok(group))
    }

    /// An equal group with memory of its own, and room for no more.
    pub(crate) fn copy(&self, alloc: Global) -> Result<Group, NoMemory>
        ensures { IfOk result (λ group. group.members ≡ self.now.members) }
    {
        let mut group = Group::none(alloc, self.users.hasher());
        group.copy_from(alloc, self).and(Ok(group))
    }

    // Copies the members that a row lists in place of its own.
    fn copy_row(
        &mut self,
        alloc: Global,
        hasher: RandomState,
        row: &GroupRow,
    ) -> Result<(), NoMemory>
        ensures { OnOk result (self.new.members ≡ members_in row.now) }
    {
        self.users.copy_list(alloc, hasher, &row.users)?;
        self.clients.copy_list(alloc, hasher, &row.clients)?;
        self.groups.copy_list(alloc, hasher, &row.groups)
    }

    // Copies these users, clients and groups in place of its own.
    fn copy_texts(
        &mut self,
        alloc: Global,
        hasher: RandomState,
        users: &[Text],
        clients: &[Text],
        groups: &[Text],
    ) -> Result<(), NoMemory>
        ensures { OnOk result (self.new.members ≡ members_of users.now clients.now groups.now) }
    {
        self.users.copy_texts(alloc, hasher, users)?;
        self.clients.copy_texts(alloc, hasher, clients)?;
        self.groups.copy_texts(alloc, hasher, groups)
    }

    // Copies the members of another group in place of its own.
    fn copy_from(&mut self, alloc: Global, other: &Group) -> Result<(), NoMemory>
        ensures { OnOk result (self.new.members ≡ other.now.members) }
    {
        self.users.copy_from(alloc, &other.users)?;
        self.clients.copy_from(alloc, &other.clients)?;
        self.groups.copy_from(alloc, &other.groups)
    }

    /// The names of its members of a kind, in the order of their bytes.
    pub(crate) fn names(&self, alloc: Global, kind: MemberKind) -> Result<Texts, NoMemory>
        ensures value { IfOk result (λ names. names ≡ names_of kind self.now.members) }
        ensures order { IfOk result InOrder }
    {
        match kind {
            MemberKind::User => self.users.names(alloc),
            MemberKind::Client => self.clients.names(alloc),
            MemberKind::Group => self.groups.names(alloc),
        }
    }

    /// Whether a caller is one of its users or clients.
    pub(crate) fn is_member(&self, caller: &Text) -> bool
        ensures { result ≡ is_member caller.now (Some self.now.members) }
    {
        self.users.contains(caller) || self.clients.contains(caller)
    }

    /// Whether a group of this name is within it.
    pub(crate) fn lists(&self, name: &Text) -> bool
        ensures { result ≡ set.contains self.now.members.groups name.now }
    {
        self.lists_any() && self.groups.contains(name)
    }

    /// Whether another has the same groups within it.
    pub(crate) fn lists_alike(&self, other: &Group) -> bool
        ensures { IsTrue result → self.now.members.groups ≡ other.now.members.groups }
    {
        self.groups.is_same(&other.groups)
    }

    /// Whether any group is within it.
    pub(crate) fn lists_any(&self) -> bool
        ensures { result ≡ false → self.now.members.groups ≡ set.empty }
    {
        !self.groups.is_empty()
    }

    /// Makes room for at least `count` further members of each kind.
    pub fn reserve(&mut self, count: usize) -> Result<(), NoMemory>
        ensures members { self.new.members ≡ self.old.members }
        ensures ok { OnOk result (count ≤ self.new.spare) }
        ensures spare { self.old.spare ≤ self.new.spare }
    {
        self.users.reserve(count)?;
        self.clients.reserve(count)?;
        self.groups.reserve(count)
    }

    /// Puts a member in. It takes no memory.
    pub fn join(&mut self, kind: MemberKind, name: Text)
        requires { 0 < self.old.spare }
        ensures members { self.new.members ≡ joined kind name self.old.members }
        ensures spare { self.old.spare ≤ self.new.spare + 1 }
    {
        match kind {
            MemberKind::User => self.users.insert(name),
            MemberKind::Client => self.clients.insert(name),
            MemberKind::Group => self.groups.insert(name),
        }
    }

    /// Takes a member out, if it is there. It takes no memory.
    pub fn leave(&mut self, kind: MemberKind, name: &Text)
        ensures members { self.new.members ≡ left kind name.now self.old.members }
        ensures spare { self.old.spare ≤ self.new.spare }
    {
        match kind {
            MemberKind::User => self.users.remove(name),
            MemberKind::Client => self.clients.remove(name),
            MemberKind::Group => self.groups.remove(name),
        }
    }
}
