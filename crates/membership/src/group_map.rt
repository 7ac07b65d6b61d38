//! The groups of an organisation, by their names.
ghost use Rattle.std.specs.Prelude.{ℕ, List, ◌≡◌, ◌+◌, ◌<◌, ◌≤◌, IfOk, OnOk, IsTrue, is_some, bytes_eq, length};
ghost use Rattle.std.specs.FinMap as finite;
ghost use Rattle.indexmap.specs.IndexMap.{insert_entry, spare};
ghost use Rattle.membership.specs.Belonging.{belongs_among};
ghost use Rattle.doc_tree.specs.Valid.{InOrder};
ghost use Rattle.membership.specs.Changes.{changed, joined, left, left_all};
ghost use Rattle.membership.specs.Leading.{KeepsLists, UnlessGroup};
ghost use Rattle.membership.specs.Lists.{members_in, with_rows};
ghost use Rattle.membership.specs.MemberNames.{members_named};
ghost use Rattle.membership.specs.Rooms.{groups_seen, rooms_seen, room_of, OthersKeepRoom};

use crate::group::Group;
use crate::leading::{
    Hashed, follow, is_member_from, lists_alike, reserve_square, work_out, work_out_unless,
    worked_out,
};
use crate::lists::GroupRow;
use crate::member_kind::MemberKind;
use crate::text_set::TextSet;
use doc_tree::{NoMemory, Text, Texts};
use indexmap::IndexMap;
use std::alloc::Global;
use std::hash::RandomState;
use std::marker::Model;

/// Groups by their names, with room for a number of further ones. Contracts see the finite map of
/// their members, the room in each and the room for more of them.
///
/// Which group leads to which is kept worked out, by the places of the groups.
#[derive(Drop)]
pub(crate) struct GroupMap {
    items: Hashed,
    /// The number of groups for which `cells` has room.
    most: usize,
    cells: Vec<bool>,
}

impl Model for GroupMap {
    ghost use Rattle.membership.specs.Rooms.{KeptGroups, kept_groups_code};

    ghost Value = { KeptGroups };

    ghost coded = { kept_groups_code };

    ghost use Rattle.std.specs.Prelude.{◌-◌, length, vec_capacity};
    ghost use Rattle.indexmap.specs.IndexMap.{spare};
    ghost use Rattle.membership.specs.Leading.{IsWorkedOut};
    ghost use Rattle.membership.specs.Rooms.{groups_seen, rooms_seen, smaller};

    ghost view = { λ m. record {
      groups = groups_seen m.items.entries;
      rooms = rooms_seen m.items.entries;
      spare = smaller (spare m.items) (m.most - length m.items.entries);
    } };

    ghost invariant = { λ m. IsWorkedOut m.items.entries m.most (vec_capacity m.cells) m.cells.items };
}

impl GroupMap {
    /// No groups, and no room for any. It takes no memory.
    pub(crate) fn none(alloc: Global, hasher: RandomState) -> GroupMap
        ensures { result.groups ≡ finite.empty }
    {
        GroupMap {
            items: IndexMap::with_hasher(alloc, hasher),
            most: 0,
            cells: Vec::new(alloc),
        }
    }

    /// The groups of these rows.
    pub(crate) fn of(
        alloc: Global,
        hasher: RandomState,
        rows: &[GroupRow],
    ) -> Result<GroupMap, NoMemory>
        ensures { IfOk result (λ m. m.groups ≡ with_rows finite.empty rows.now) }
    {
        with_items(alloc, rows_items(alloc, hasher, rows)?)
    }

    /// Equal groups with memory of their own, and room for no more.
    pub(crate) fn copy(&self, alloc: Global) -> Result<GroupMap, NoMemory>
        ensures { IfOk result (λ m. m.groups ≡ self.now.groups) }
    {
        with_items(alloc, copy_items(alloc, &self.items)?)
    }

    /// Copies the groups of these rows in place of its own.
    pub(crate) fn copy_rows(
        &mut self,
        alloc: Global,
        hasher: RandomState,
        rows: &[GroupRow],
    ) -> Result<(), NoMemory>
        ensures { OnOk result (self.new.groups ≡ with_rows finite.empty rows.now) }
    {
        *self = GroupMap::of(alloc, hasher, rows)?;
        Ok(())
    }

    /// Copies other groups in place of its own.
    pub(crate) fn copy_from(&mut self, alloc: Global, other: &GroupMap) -> Result<(), NoMemory>
        ensures { OnOk result (self.new.groups ≡ other.now.groups) }
    {
        *self = other.copy(alloc)?;
        Ok(())
    }

    /// The names of the groups, in the order of their bytes.
    pub(crate) fn names(&self, alloc: Global) -> Result<Texts, NoMemory>
        ensures value { IfOk result (λ names. names ≡ finite.keys self.now.groups) }
        ensures order { IfOk result InOrder }
    {
        Ok(TextSet::of_copies(alloc, self.items.keys().as_slice())?.into_texts())
    }

    /// The names of a group's members of a kind, in the order of their bytes.
    pub(crate) fn members(
        &self,
        alloc: Global,
        name: &Text,
        kind: MemberKind,
    ) -> Result<Texts, NoMemory>
        ensures value { IfOk result (λ names. names ≡ members_named kind (finite.get self.now.groups name.now)) }
        ensures order { IfOk result InOrder }
    {
        match self.items.get(name) {
            Some(group) => group.names(alloc, kind),
            None => Ok(TextSet::new(alloc).into_texts()),
        }
    }

    /// Whether a group is there.
    pub(crate) fn has(&self, name: &Text) -> bool
        ensures { result ≡ is_some (finite.get self.now.groups name.now) }
    {
        self.items.contains_key(name)
    }

    /// Whether a caller belongs to a group. It takes no memory.
    pub(crate) fn belongs(&self, caller: &Text, name: &Text) -> bool
        ensures { result ≡ belongs_among self.now.groups caller.now name.now }
    {
        match self.items.get_index_of(name) {
            Some(place) => is_member_from(&self.items, self.cells.as_slice(), place, caller),
            None => false,
        }
    }

    /// Makes room for at least `count` further groups.
    pub(crate) fn reserve(&mut self, count: usize) -> Result<(), NoMemory>
        ensures groups { self.new.groups ≡ self.old.groups }
        ensures rooms { self.new.rooms ≡ self.old.rooms }
        ensures ok { OnOk result (count ≤ self.new.spare) }
        ensures spare { self.old.spare ≤ self.new.spare }
    {
        self.items.reserve(count)?;
        reserve_square(self.items.len(), count, &mut self.most, &mut self.cells)
    }

    /// Makes room in a group for at least `count` further members of each kind.
    pub(crate) fn reserve_in(&mut self, name: &Text, count: usize) -> Result<(), NoMemory>
        ensures groups { self.new.groups ≡ self.old.groups }
        ensures ok { OnOk result (IsTrue (is_some (finite.get self.old.groups name.now)) → count ≤ room_of self.new.rooms name.now) }
        ensures room { room_of self.old.rooms name.now ≤ room_of self.new.rooms name.now }
        ensures others { OthersKeepRoom name.now self.old.rooms self.new.rooms }
        ensures spare { self.new.spare ≡ self.old.spare }
    {
        reserve_in(&mut self.items, name, count)
    }

    /// Puts a member into a group. It takes no memory.
    pub(crate) fn join(&mut self, name: &Text, kind: MemberKind, member: Text)
        requires { 0 < room_of self.old.rooms name.now }
        ensures groups { self.new.groups ≡ changed name.now (joined kind member) self.old.groups }
        ensures room { room_of self.old.rooms name.now ≤ room_of self.new.rooms name.now + 1 }
        ensures others { OthersKeepRoom name.now self.old.rooms self.new.rooms }
        ensures spare { self.new.spare ≡ self.old.spare }
    {
        join(&mut self.items, name, kind, member);
        follow(kind, &self.items, &mut self.cells);
    }

    /// Takes a member out of a group, if both are there. It takes no memory.
    pub(crate) fn leave(&mut self, name: &Text, kind: MemberKind, member: &Text)
        ensures groups { self.new.groups ≡ changed name.now (left kind member.now) self.old.groups }
        ensures room { room_of self.old.rooms name.now ≤ room_of self.new.rooms name.now }
        ensures others { OthersKeepRoom name.now self.old.rooms self.new.rooms }
        ensures spare { self.new.spare ≡ self.old.spare }
    {
        leave(&mut self.items, name, kind, member);
        follow(kind, &self.items, &mut self.cells);
    }

    /// Takes a member out of every group. It takes no memory.
    pub(crate) fn leave_all(&mut self, kind: MemberKind, member: &Text)
        ensures groups { self.new.groups ≡ left_all kind member.now self.old.groups }
        ensures rooms { (name : List ℕ) → room_of self.old.rooms name ≤ room_of self.new.rooms name }
        ensures spare { self.old.spare ≤ self.new.spare }
    {
        leave_all(&mut self.items, kind, member);
        follow(kind, &self.items, &mut self.cells);
    }

    /// Puts a group in, in place of one of its name. It takes no memory. Which group leads to which is
    /// worked out anew, but where the group lists what the other did.
    pub(crate) fn put(&mut self, name: Text, group: Group)
        requires { 0 < self.old.spare }
        ensures groups { self.new.groups ≡ finite.insert self.old.groups name group.members }
        ensures rooms { self.new.rooms ≡ finite.insert self.old.rooms name group.spare }
        ensures spare { self.old.spare ≤ self.new.spare + 1 }
    {
        let alike = lists_alike(&self.items, &name, &group);
        put(&mut self.items, name, group);
        work_out_unless(alike, &self.items, &mut self.cells);
    }

    /// Takes a group out, if it is there. It takes no memory.
    pub(crate) fn remove(&mut self, name: &Text)
        ensures groups { self.new.groups ≡ finite.remove self.old.groups name.now }
        ensures rooms { self.new.rooms ≡ finite.remove self.old.rooms name.now }
        ensures spare { self.old.spare ≤ self.new.spare }
    {
        take(&mut self.items, name);
        work_out(&self.items, &mut self.cells);
    }
}

// Groups with what of them leads to which.
fn with_items(alloc: Global, items: Hashed) -> Result<GroupMap, NoMemory>
    ensures { IfOk result (λ m. m.groups ≡ groups_seen items.entries) }
{
    match worked_out(alloc, &items) {
        Ok(cells) => Ok(GroupMap {
            most: items.len(),
            items,
            cells,
        }),
        Err(fault) => {
            drop(items);
            Err(fault)
        }
    }
}

fn rows_items(alloc: Global, hasher: RandomState, rows: &[GroupRow]) -> Result<Hashed, NoMemory>
    ensures { IfOk result (λ items. groups_seen items.entries ≡ with_rows finite.empty rows.now) }
{
    let mut items = IndexMap::with_capacity_and_hasher(alloc, rows.len(), hasher)?;
    add_rows(alloc, hasher, rows, &mut items).and(Ok(items))
}

fn copy_items(alloc: Global, items: &Hashed) -> Result<Hashed, NoMemory>
    ensures { IfOk result (λ copy. groups_seen copy.entries ≡ groups_seen items.now.entries) }
{
    let mut made = IndexMap::with_capacity_and_hasher(alloc, items.len(), *items.hasher())?;
    for (name, group) in items {
        add_copy(alloc, name, group, &mut made)?;
    }
    Ok(made)
}

fn add_copy(alloc: Global, name: &Text, group: &Group, made: &mut Hashed) -> Result<(), NoMemory>
    ensures { OnOk result (groups_seen made.new.entries ≡ finite.insert (groups_seen made.old.entries) name.now group.now.members) }
{
    let name = name.copy(alloc)?;
    add(made, name, group.copy(alloc)?)
}

fn add_rows(
    alloc: Global,
    hasher: RandomState,
    rows: &[GroupRow],
    items: &mut Hashed,
) -> Result<(), NoMemory>
    ensures { OnOk result (groups_seen items.new.entries ≡ with_rows (groups_seen items.old.entries) rows.now) }
{
    for row in rows {
        add_row(alloc, hasher, row, items)?;
    }
    Ok(())
}

fn add_row(
    alloc: Global,
    hasher: RandomState,
    row: &GroupRow,
    items: &mut Hashed,
) -> Result<(), NoMemory>
    ensures { OnOk result (groups_seen items.new.entries ≡ finite.insert (groups_seen items.old.entries) row.now.name (members_in row.now)) }
{
    let name = row.name.as_text().copy(alloc)?;
    add(items, name, Group::of(alloc, hasher, row)?)
}

fn add(items: &mut Hashed, name: Text, group: Group) -> Result<(), NoMemory>
    ensures { OnOk result (groups_seen items.new.entries ≡ finite.insert (groups_seen items.old.entries) name group.members) }
{
    drop(items.insert(name, group)?);
    Ok(())
}

fn reserve_in(items: &mut Hashed, name: &Text, count: usize) -> Result<(), NoMemory>
    ensures groups { groups_seen items.new.entries ≡ groups_seen items.old.entries }
    ensures ok { OnOk result (IsTrue (is_some (finite.get (groups_seen items.old.entries) name.now)) → count ≤ room_of (rooms_seen items.new.entries) name.now) }
    ensures room { room_of (rooms_seen items.old.entries) name.now ≤ room_of (rooms_seen items.new.entries) name.now }
    ensures others { OthersKeepRoom name.now (rooms_seen items.old.entries) (rooms_seen items.new.entries) }
    ensures spare { spare items.new ≡ spare items.old }
    ensures lists { KeepsLists items.old.entries items.new.entries }
{
    let Some(group) = items.get_mut(name) else {
        return Ok(());
    };
    group.reserve(count)
}

fn join(items: &mut Hashed, name: &Text, kind: MemberKind, member: Text)
    requires { 0 < room_of (rooms_seen items.old.entries) name.now }
    ensures groups { groups_seen items.new.entries ≡ changed name.now (joined kind member) (groups_seen items.old.entries) }
    ensures room { room_of (rooms_seen items.old.entries) name.now ≤ room_of (rooms_seen items.new.entries) name.now + 1 }
    ensures others { OthersKeepRoom name.now (rooms_seen items.old.entries) (rooms_seen items.new.entries) }
    ensures spare { spare items.new ≡ spare items.old }
    ensures len { length items.new.entries ≡ length items.old.entries }
    ensures lists { UnlessGroup kind (KeepsLists items.old.entries items.new.entries) }
{
    let Some(group) = items.get_mut(name) else {
        return;
    };
    group.join(kind, member);
}

fn leave(items: &mut Hashed, name: &Text, kind: MemberKind, member: &Text)
    ensures groups { groups_seen items.new.entries ≡ changed name.now (left kind member.now) (groups_seen items.old.entries) }
    ensures room { room_of (rooms_seen items.old.entries) name.now ≤ room_of (rooms_seen items.new.entries) name.now }
    ensures others { OthersKeepRoom name.now (rooms_seen items.old.entries) (rooms_seen items.new.entries) }
    ensures spare { spare items.new ≡ spare items.old }
    ensures len { length items.new.entries ≡ length items.old.entries }
    ensures lists { UnlessGroup kind (KeepsLists items.old.entries items.new.entries) }
{
    let Some(group) = items.get_mut(name) else {
        return;
    };
    group.leave(kind, member);
}

fn leave_all(items: &mut Hashed, kind: MemberKind, member: &Text)
    ensures groups { groups_seen items.new.entries ≡ left_all kind member.now (groups_seen items.old.entries) }
    ensures rooms { (name : List ℕ) → room_of (rooms_seen items.old.entries) name ≤ room_of (rooms_seen items.new.entries) name }
    ensures spare { spare items.old ≤ spare items.new }
    ensures len { length items.new.entries ≡ length items.old.entries }
    ensures lists { UnlessGroup kind (KeepsLists items.old.entries items.new.entries) }
{
    // Every group stays: `retain` reaches each where it stands.
    items.retain(|_, group| {
        group.leave(kind, member);
        true
    });
}

fn put(items: &mut Hashed, name: Text, group: Group)
    requires { 0 < spare items.old }
    ensures groups { groups_seen items.new.entries ≡ finite.insert (groups_seen items.old.entries) name group.members }
    ensures rooms { rooms_seen items.new.entries ≡ finite.insert (rooms_seen items.old.entries) name group.spare }
    ensures spare { spare items.old ≤ spare items.new + 1 }
    ensures len { length items.new.entries ≤ length items.old.entries + 1 }
    ensures entries { items.new.entries ≡ insert_entry bytes_eq items.old.entries name group }
{
    drop(items.insert(name, group));
}

fn take(items: &mut Hashed, name: &Text)
    ensures groups { groups_seen items.new.entries ≡ finite.remove (groups_seen items.old.entries) name.now }
    ensures rooms { rooms_seen items.new.entries ≡ finite.remove (rooms_seen items.old.entries) name.now }
    ensures spare { spare items.old ≤ spare items.new }
    ensures len { length items.new.entries ≤ length items.old.entries }
{
    drop(items.swap_remove(name));
}
