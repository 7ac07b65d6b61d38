//! The users, clients and groups of an organisation.
ghost use Rattle.std.specs.Prelude.{ℕ, List, ◌≡◌, ◌+◌, ◌<◌, ◌≤◌, IfOk, IsTrue, OnOk, bytes_eq};
ghost use Rattle.std.specs.List.{list_any};
ghost use Rattle.std.specs.FinMap as finite;
ghost use Rattle.doc_tree.specs.Valid.{InOrder};
ghost use Rattle.membership.specs.Actors.{operator};
ghost use Rattle.membership.specs.Actors as spec;
ghost use Rattle.membership.specs.Belonging.{belongs};
ghost use Rattle.membership.specs.Changes.{changed, joined, left, left_all, with_user, without_user, with_client, without_client, with_groups};
ghost use Rattle.membership.specs.Lists.{membership_in};
ghost use Rattle.membership.specs.MemberNames.{names_in, members_named};
ghost use Rattle.membership.specs.Members.{no_members, nobody};
ghost use Rattle.membership.specs.Rooms.{room_of, OthersKeepRoom};
ghost use Rattle.membership.specs.StartingGroups.{starting};

use crate::group::Group;
use crate::group_map::GroupMap;
use crate::lists::GroupLists;
use crate::member_kind::MemberKind;
use crate::name_set::NameSet;
use doc_tree::{NoMemory, Text, Texts};
use std::alloc::Global;
use std::hash::RandomState;
use std::marker::Model;

/// The users and clients of an organisation and its groups with their members, by the hashes of their
/// names, with room for a number of further ones. Contracts see finite sets and a finite map, the room
/// in each group, and the room for more users, clients and groups.
///
/// Which group leads to which is kept worked out, a byte for each two groups, since whoever belongs to a
/// group belongs to each that lists it: a change of what some group lists works it out anew.
///
/// What changes it takes no memory where room was made before: `reserve` for users, clients and groups,
/// and `reserve_in` for the members of a group.
#[derive(Drop)]
pub struct Groups {
    users: NameSet,
    clients: NameSet,
    groups: GroupMap,
}

impl Model for Groups {
    ghost use Rattle.membership.specs.Rooms.{Kept, kept_code, smaller};

    ghost Value = { Kept };

    ghost coded = { kept_code };

    ghost view = { λ g. record {
      membership = record { users = g.users.names; clients = g.clients.names; groups = g.groups.groups };
      rooms = g.groups.rooms;
      spare = smaller g.users.spare (smaller g.clients.spare g.groups.spare);
    } };
}

impl Groups {
    /// Nobody, and no room for anybody. It takes no memory.
    pub fn none(alloc: Global, hasher: RandomState) -> Groups
        ensures { result.membership ≡ nobody }
    {
        Groups {
            users: NameSet::none(alloc, hasher),
            clients: NameSet::none(alloc, hasher),
            groups: GroupMap::none(alloc, hasher),
        }
    }

    /// What an organisation starts with: no users, no clients, and the groups `admins`,
    /// `billing-admins`, `clients` and `users`, each without members.
    pub fn starting(alloc: Global, hasher: RandomState) -> Result<Groups, NoMemory>
        ensures { IfOk result (λ groups. groups.membership ≡ starting) }
    {
        let mut groups = Groups::none(alloc, hasher);
        groups.reserve(4)?;
        groups.put_empty(alloc, hasher, "admins")?;
        groups.put_empty(alloc, hasher, "billing-admins")?;
        groups.put_empty(alloc, hasher, "clients")?;
        groups.put_empty(alloc, hasher, "users")?;
        Ok(groups)
    }

    // Puts in a group that has no members.
    fn put_empty(&mut self, alloc: Global, hasher: RandomState, name: &str) -> Result<(), NoMemory>
        requires { 0 < self.old.spare }
        ensures membership { OnOk result (self.new.membership ≡ with_groups (finite.insert self.old.membership.groups name.now no_members) self.old.membership) }
        ensures spare { self.old.spare ≤ self.new.spare + 1 }
    {
        let name = Text::from_str(alloc, name)?;
        self.put_group(name, Group::none(alloc, hasher));
        Ok(())
    }

    /// What the lists say. Of two groups of one name the later counts.
    pub fn build(alloc: Global, hasher: RandomState, lists: &GroupLists) -> Result<Groups, NoMemory>
        ensures { IfOk result (λ groups. groups.membership ≡ membership_in lists.now) }
    {
        let mut groups = Groups::none(alloc, hasher);
        groups.copy_lists(alloc, hasher, lists).and(Ok(groups))
    }

    /// Equal users, clients and groups with memory of their own, and room for no more.
    pub fn copy(&self, alloc: Global) -> Result<Groups, NoMemory>
        ensures { IfOk result (λ groups. groups.membership ≡ self.now.membership) }
    {
        let mut groups = Groups::none(alloc, self.users.hasher());
        groups.copy_from(alloc, self).and(Ok(groups))
    }

    // Copies what the lists say in place of its own.
    fn copy_lists(
        &mut self,
        alloc: Global,
        hasher: RandomState,
        lists: &GroupLists,
    ) -> Result<(), NoMemory>
        ensures { OnOk result (self.new.membership ≡ membership_in lists.now) }
    {
        self.users.copy_list(alloc, hasher, &lists.users)?;
        self.clients.copy_list(alloc, hasher, &lists.clients)?;
        self.groups
            .copy_rows(alloc, hasher, lists.groups.as_slice())
    }

    // Copies the users, clients and groups of another in place of its own.
    fn copy_from(&mut self, alloc: Global, other: &Groups) -> Result<(), NoMemory>
        ensures { OnOk result (self.new.membership ≡ other.now.membership) }
    {
        self.users.copy_from(alloc, &other.users)?;
        self.clients.copy_from(alloc, &other.clients)?;
        self.groups.copy_from(alloc, &other.groups)
    }

    /// The names of the users, of the clients or of the groups, in the order of their bytes.
    pub fn names(&self, alloc: Global, kind: MemberKind) -> Result<Texts, NoMemory>
        ensures value { IfOk result (λ names. names ≡ names_in kind self.now.membership) }
        ensures order { IfOk result InOrder }
    {
        match kind {
            MemberKind::User => self.users.names(alloc),
            MemberKind::Client => self.clients.names(alloc),
            MemberKind::Group => self.groups.names(alloc),
        }
    }

    /// The names of a group's members of a kind, in the order of their bytes: none where there is no
    /// such group.
    pub fn members(&self, alloc: Global, group: &Text, kind: MemberKind) -> Result<Texts, NoMemory>
        ensures value { IfOk result (λ names. names ≡ members_named kind (finite.get self.now.membership.groups group.now)) }
        ensures order { IfOk result InOrder }
    {
        self.groups.members(alloc, group, kind)
    }

    /// Whether the organisation has a user, a client or a group of this name.
    pub fn has(&self, kind: MemberKind, name: &Text) -> bool
        ensures { result ≡ spec.has self.now.membership kind name.now }
    {
        match kind {
            MemberKind::User => self.users.contains(name),
            MemberKind::Client => self.clients.contains(name),
            MemberKind::Group => self.groups.has(name),
        }
    }

    /// Whether a name is that of a user, of a client or of the operator. It takes no memory, and two
    /// look-ups by hash at most.
    pub fn is_actor(&self, name: &Text) -> bool
        ensures { result ≡ spec.is_actor self.now.membership name.now }
    {
        is_operator(name) || self.users.contains(name) || self.clients.contains(name)
    }

    /// Whether a caller belongs to a group: is a user or client of it or of one to which it leads. It takes
    /// no memory.
    #[tactic(auto, unfolding(crate::specs::Belonging::belongs))]
    fn belongs(&self, caller: &Text, group: &Text) -> bool
        ensures { result ≡ belongs self.now.membership caller.now group.now }
    {
        self.groups.belongs(caller, group)
    }

    /// Whether a caller belongs to one of these groups, also through groups within them. It takes no memory.
    pub fn belongs_to_any(&self, caller: &Text, groups: &[Text]) -> bool
        ensures { result ≡ list_any (belongs self.now.membership caller.now) groups.now }
    {
        groups.iter().any(|group| self.belongs(caller, group))
    }

    /// Makes room for at least `count` further users, clients and groups.
    pub fn reserve(&mut self, count: usize) -> Result<(), NoMemory>
        ensures membership { self.new.membership ≡ self.old.membership }
        ensures rooms { self.new.rooms ≡ self.old.rooms }
        ensures ok { OnOk result (count ≤ self.new.spare) }
        ensures spare { self.old.spare ≤ self.new.spare }
    {
        self.users.reserve(count)?;
        self.clients.reserve(count)?;
        self.groups.reserve(count)
    }

    /// Makes room in a group, where it is there, for at least `count` further members of each kind.
    pub fn reserve_in(&mut self, group: &Text, count: usize) -> Result<(), NoMemory>
        ensures membership { self.new.membership ≡ self.old.membership }
        ensures ok { OnOk result (IsTrue (spec.has self.old.membership MemberKind.Group group.now) → count ≤ room_of self.new.rooms group.now) }
        ensures room { room_of self.old.rooms group.now ≤ room_of self.new.rooms group.now }
        ensures others { OthersKeepRoom group.now self.old.rooms self.new.rooms }
        ensures spare { self.new.spare ≡ self.old.spare }
    {
        self.groups.reserve_in(group, count)
    }

    /// A user comes to the organisation. It takes no memory.
    pub fn add_user(&mut self, name: Text)
        requires { 0 < self.old.spare }
        ensures membership { self.new.membership ≡ with_user name self.old.membership }
        ensures rooms { self.new.rooms ≡ self.old.rooms }
        ensures spare { self.old.spare ≤ self.new.spare + 1 }
    {
        self.users.insert(name);
    }

    /// A client comes to the organisation. It takes no memory.
    pub fn add_client(&mut self, name: Text)
        requires { 0 < self.old.spare }
        ensures membership { self.new.membership ≡ with_client name self.old.membership }
        ensures rooms { self.new.rooms ≡ self.old.rooms }
        ensures spare { self.old.spare ≤ self.new.spare + 1 }
    {
        self.clients.insert(name);
    }

    /// A user goes from the organisation, but not from its groups. It takes no memory.
    pub fn remove_user(&mut self, name: &Text)
        ensures membership { self.new.membership ≡ without_user name.now self.old.membership }
        ensures rooms { self.new.rooms ≡ self.old.rooms }
        ensures spare { self.old.spare ≤ self.new.spare }
    {
        self.users.remove(name);
    }

    /// A client goes from the organisation, but not from its groups. It takes no memory.
    pub fn remove_client(&mut self, name: &Text)
        ensures membership { self.new.membership ≡ without_client name.now self.old.membership }
        ensures rooms { self.new.rooms ≡ self.old.rooms }
        ensures spare { self.old.spare ≤ self.new.spare }
    {
        self.clients.remove(name);
    }

    /// A member joins a group. It takes no memory.
    pub fn join(&mut self, group: &Text, kind: MemberKind, member: Text)
        requires { 0 < room_of self.old.rooms group.now }
        ensures membership { self.new.membership ≡ with_groups (changed group.now (joined kind member) self.old.membership.groups) self.old.membership }
        ensures room { room_of self.old.rooms group.now ≤ room_of self.new.rooms group.now + 1 }
        ensures others { OthersKeepRoom group.now self.old.rooms self.new.rooms }
        ensures spare { self.new.spare ≡ self.old.spare }
    {
        self.groups.join(group, kind, member);
    }

    /// A member leaves a group, if both are there. It takes no memory.
    pub fn leave(&mut self, group: &Text, kind: MemberKind, member: &Text)
        ensures membership { self.new.membership ≡ with_groups (changed group.now (left kind member.now) self.old.membership.groups) self.old.membership }
        ensures room { room_of self.old.rooms group.now ≤ room_of self.new.rooms group.now }
        ensures others { OthersKeepRoom group.now self.old.rooms self.new.rooms }
        ensures spare { self.new.spare ≡ self.old.spare }
    {
        self.groups.leave(group, kind, member);
    }

    /// A member leaves every group, as one that is deleted goes. It takes no memory, and one look-up by
    /// hash for each group.
    pub fn leave_all(&mut self, kind: MemberKind, member: &Text)
        ensures membership { self.new.membership ≡ with_groups (left_all kind member.now self.old.membership.groups) self.old.membership }
        ensures rooms { (name : List ℕ) → room_of self.old.rooms name ≤ room_of self.new.rooms name }
        ensures spare { self.old.spare ≤ self.new.spare }
    {
        self.groups.leave_all(kind, member);
    }

    /// Puts a group in, in place of one of its name: a group may be made anew while a request is
    /// prepared. It takes no memory.
    pub fn put_group(&mut self, name: Text, group: Group)
        requires { 0 < self.old.spare }
        ensures membership { self.new.membership ≡ with_groups (finite.insert self.old.membership.groups name group.members) self.old.membership }
        ensures rooms { self.new.rooms ≡ finite.insert self.old.rooms name group.spare }
        ensures spare { self.old.spare ≤ self.new.spare + 1 }
    {
        self.groups.put(name, group);
    }

    /// Takes a group out, if it is there, but not out of other groups. It takes no memory.
    pub fn remove_group(&mut self, name: &Text)
        ensures membership { self.new.membership ≡ with_groups (finite.remove self.old.membership.groups name.now) self.old.membership }
        ensures rooms { self.new.rooms ≡ finite.remove self.old.rooms name.now }
        ensures spare { self.old.spare ≤ self.new.spare }
    {
        self.groups.remove(name);
    }
}

/// Whether a name is that of the operator of the site.
pub fn is_operator(name: &Text) -> bool
    ensures { result ≡ bytes_eq name.now operator }
{
    name.as_str() == "pivotal"
}
