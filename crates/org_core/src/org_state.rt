//! The state of one organisation, as it is kept.

ghost use Rattle.std.specs.Prelude.{◌≡◌, ◌+◌, ◌≤◌, None, Some, cond, is_some, true, IfOk, OnOk, option_copied};
ghost use Rattle.doc_tree.specs.Valid.{InOrder};
ghost use Rattle.object_store.specs.Items.{ids_in, item_name};
ghost use Rattle.object_store.specs.Objects.{names_in};
ghost use Rattle.doc_tree.specs.declared.kind.Kind.TheVariants as kinds;
ghost use Rattle.org_core.specs.Conditions.{MeetsConditions};
ghost use Rattle.org_core.specs.FullStates.{MeetsFileConditions};
ghost use Rattle.std.specs.FinMap as finite;
ghost use Rattle.membership.specs.Changes.{with_client, with_groups, with_user, without_client, without_user};
ghost use Rattle.org_core.specs.States.{state_in, state_from, cookbooks_of, shelved_of, objects_of, lists_of, object_in, has_object, list_in, membership_of, room_for, IsNobody};
ghost use Rattle.org_core.specs.FileMoves.{files_after, files_after_move, files_put_in as spec_files_put_in, takes_file_room, takes_shelf_room, shelved_by as spec_shelved_by};
ghost use Rattle.org_core.specs.Rooms.{HasRoom};
ghost use Rattle.shelves.specs.Shelves.{shelves_of};
ghost use Rattle.version_rules.specs.Order.{version_cmp};
ghost use Rattle.sandboxes.specs.Files.{holding_of, spare_of, OthersStay};
ghost use Rattle.org_core.specs.Moves.{HasRoomToJoin, HasRoomToJoinFirst, IsOrderly, after_move, after_moves, group_joined, joins, leaves, lists_without_actor, lists_without_group, takes_room};

use crate::comers::Comer;
use crate::file_moves::make_on_files;
use crate::moves::{Move, Moves, files_put_in, puts_in, shelved_by};
use access_lists::AclAt;
use compact_json::CompactJson;
use doc_tree::{Kind, NoMemory, Steps, Text, Texts};
use membership::{Groups, MemberKind};
use object_store::{Key, Objects};
use org_shelves::{Cookbooks, OrgShelves, make_on_shelves};
use sandboxes::Files;
use std::alloc::Global;
use std::hash::RandomState;
use std::marker::Model;
use std::sync::ledger::Ledger;

/// One organisation: its name, whether it is there, and what it holds. Contracts see its name, its
/// state, `state_in`, and the room for moves, `HasRoom`. Its state meets the conditions of every
/// organisation's (`MeetsConditions`), which is what its type says.
#[derive(Drop)]
pub struct OrgState {
    org: Text,
    there: bool,
    objects: Objects,
    groups: Groups,
    shelves: OrgShelves,
    hasher: RandomState,
}

impl Model for OrgState {
    ghost use Rattle.org_core.specs.States.{Kept, kept_code, IsNobody};
    ghost use Rattle.org_core.specs.States as states;
    ghost use Rattle.org_core.specs.Conditions.{MeetsConditions};

    ghost Value = { Kept };

    ghost coded = { kept_code };

    ghost view = { λ s. record { name = s.org; there = s.there; objects = s.objects; groups = s.groups; shelves = s.shelves } };

    // One that isn't there holds nothing, and the state of one that is meets the conditions.
    ghost invariant = { λ s. IsNobody s.there s.objects s.groups s.shelves × MeetsConditions (states.state_from s.there s.objects s.groups s.shelves) };
}

impl OrgState {
    /// The state of an organisation of this name that isn't there. It takes no memory.
    pub fn none(alloc: Global, hasher: RandomState, org: Text) -> OrgState
        ensures name { result.name ≡ org }
        ensures state { state_in result ≡ None }
    {
        OrgState {
            org,
            there: false,
            objects: Objects::none(alloc, hasher),
            groups: Groups::none(alloc, hasher),
            shelves: OrgShelves::none(alloc),
            hasher,
        }
    }

    /// The state of an organisation of this name that is there and has just these parts, as they were
    /// kept, with the files under its name. They meet the conditions of every organisation's. The
    /// files stay where they are. It takes no memory.
    pub fn of(
        hasher: RandomState,
        org: Text,
        objects: Objects,
        groups: Groups,
        shelves: OrgShelves,
        files: &Files,
    ) -> OrgState
        requires conditions { MeetsConditions (state_from true objects groups shelves) }
        requires files { MeetsFileConditions (record { state = state_from true objects groups shelves; files = holding_of files.now org }) }
        ensures name { result.name ≡ org }
        ensures state { state_in result ≡ state_from true objects groups shelves }
    {
        let _ = files;
        OrgState {
            org,
            there: true,
            objects,
            groups,
            shelves,
            hasher,
        }
    }

    /// The organisation's name, also where it isn't there. It takes no memory.
    pub fn name(&self) -> &Text
        ensures { result.now ≡ self.now.name }
    {
        &self.org
    }

    /// Whether the organisation is there. It takes no memory.
    pub fn is_there(&self) -> bool
        ensures { result ≡ is_some (state_in self.now) }
    {
        self.there
    }

    /// The objects of the organisation with their access lists, of which one that isn't there has none. It takes no
    /// memory.
    pub fn objects(&self) -> &Objects
        ensures objects { result.now.objects ≡ objects_of (state_in self.now) }
        ensures lists { result.now.lists ≡ lists_of (state_in self.now) }
    {
        &self.objects
    }

    /// An equal state with memory of its own.
    pub fn copy(&self, alloc: Global) -> Result<OrgState, NoMemory>
        ensures name { IfOk result (λ s. s.name ≡ self.now.name) }
        ensures state { IfOk result (λ s. state_in s ≡ state_in self.now) }
    {
        let org = self.org.copy(alloc)?;
        let objects = self.objects.copy(alloc)?;
        match copy_both(alloc, &self.groups, &self.shelves) {
            Ok((groups, shelves)) => Ok(OrgState {
                org,
                there: self.there,
                objects,
                groups,
                shelves,
                hasher: self.hasher,
            }),
            Err(fault) => {
                drop(objects);
                Err(fault)
            }
        }
    }

    /// The access list of the object of this key, if it has one. It takes no memory.
    pub fn acl(&self, key: &Key) -> Option<AclAt<'_>>
        ensures { result ≡ list_in (state_in self.now) key.now }
    {
        self.objects.acl(key)
    }

    /// The users, clients and groups of the organisation, of which one that isn't there has none.
    pub fn groups(&self) -> &Groups
        ensures { result.now.membership ≡ membership_of (state_in self.now) }
    {
        &self.groups
    }

    /// What the organisation keeps on shelves: one that isn't there keeps nothing.
    pub fn shelves(&self) -> &OrgShelves
        ensures { result.now.shelved ≡ shelved_of (state_in self.now) }
    {
        &self.shelves
    }

    /// The cookbook versions of the organisation, of which one that isn't there has none.
    pub fn cookbooks(&self) -> &Cookbooks
        ensures { shelves_of version_cmp result.now ≡ cookbooks_of (state_in self.now) }
    {
        self.shelves().cookbooks()
    }

    /// What names are hashed with, for a group that is to be put in.
    pub fn hasher(&self) -> RandomState {
        self.hasher
    }

    /// Whether an object of this kind and name is there. No object is looked at.
    pub fn has(&self, kind: Kind, name: &str) -> bool
        ensures { result ≡ has_object (state_in self.now) kind name.now }
    {
        self.objects().has(kind, name)
    }

    /// Whether this bag has an item of this id. No object is looked at.
    pub fn has_item(&self, bag: &str, id: &str) -> bool
        ensures { result ≡ has_object (state_in self.now) kinds.Item (item_name bag.now id.now) }
    {
        self.objects().has_item(bag, id)
    }

    /// The object of this kind and name. It is looked at in one step.
    pub fn look_up<L: Ledger>(
        &self,
        kind: Kind,
        name: &str,
        steps: &mut Steps<L>,
    ) -> Option<&CompactJson>
        ensures object { option_copied result ≡ object_in (state_in self.now) kind name.now }
        ensures looked { steps.new ≡ steps.old + 1 }
    {
        self.objects().look_up(kind, name, steps)
    }

    /// The item of this id in this bag. It is looked at in one step.
    pub fn item<L: Ledger>(&self, bag: &str, id: &str, steps: &mut Steps<L>) -> Option<&CompactJson>
        ensures object { option_copied result ≡ object_in (state_in self.now) kinds.Item (item_name bag.now id.now) }
        ensures looked { steps.new ≡ steps.old + 1 }
    {
        self.objects().item(bag, id, steps)
    }

    /// The names of the objects of this kind, in the order of their bytes.
    pub fn names(&self, alloc: Global, kind: Kind) -> Result<Texts, NoMemory>
        ensures value { IfOk result (λ names. names ≡ names_in kind (objects_of (state_in self.now))) }
        ensures order { IfOk result InOrder }
    {
        self.objects().names(alloc, kind)
    }

    /// The ids of the items of this bag, in the order of their bytes.
    pub fn ids(&self, alloc: Global, bag: &str) -> Result<Texts, NoMemory>
        ensures value { IfOk result (λ ids. ids ≡ ids_in bag.now (objects_of (state_in self.now))) }
        ensures order { IfOk result InOrder }
    {
        self.objects().ids(alloc, bag)
    }

    /// That the state meets the conditions of every organisation's, which its type says. It does nothing.
    pub fn meets_conditions(&self)
        ensures { MeetsConditions (state_in self.now) }
    {
        let _ = &self.there;
    }

    /// Makes room for moves, of which none but the first brings somebody, here and among the files.
    pub fn reserve(
        &mut self,
        alloc: Global,
        files: &mut Files,
        moves: &Moves,
    ) -> Result<(), NoMemory>
        requires { IsOrderly moves.now }
        ensures name { self.new.name ≡ self.old.name }
        ensures state { state_in self.new ≡ state_in self.old }
        ensures files { holding_of files.new self.old.name ≡ holding_of files.old self.old.name }
        ensures others { OthersStay self.old.name files.old files.new }
        ensures room { OnOk result (HasRoom moves.now self.new.objects self.new.groups self.new.shelves (spare_of files.new self.new.name)) }
    {
        let count = puts_in(moves.as_slice());
        self.objects.reserve(count)?;
        self.groups.reserve(count)?;
        make_room_to_join_first(&mut self.groups, moves.as_slice())?;
        self.shelves.reserve(shelved_by(moves.as_slice()))?;
        reserve_files(alloc, files, &self.org, files_put_in(moves.as_slice()))
    }

    /// Makes moves for which there is room, in order. They lead to a state that meets the conditions.
    /// The files of other organisations stay as they are. It takes no memory.
    pub fn make_all(&mut self, files: &mut Files, moves: Moves)
        requires room { HasRoom moves self.old.objects self.old.groups self.old.shelves (spare_of files.old self.old.name) }
        requires conditions { MeetsConditions (after_moves moves (state_in self.old)) }
        ensures name { self.new.name ≡ self.old.name }
        ensures state { state_in self.new ≡ after_moves moves (state_in self.old) }
        ensures files { holding_of files.new self.old.name ≡ files_after self.old.name moves (state_in self.old) (holding_of files.old self.old.name) }
        ensures others { OthersStay self.old.name files.old files.new }
    {
        make_all(
            &self.org,
            &mut self.there,
            &mut self.objects,
            &mut self.groups,
            &mut self.shelves,
            files,
            moves,
        );
    }
}

// Equal groups and shelves with memory of their own.
fn copy_both(
    alloc: Global,
    groups: &Groups,
    shelves: &OrgShelves,
) -> Result<(Groups, OrgShelves), NoMemory>
    ensures groups { IfOk result (λ copies. copies.0.membership ≡ groups.now.membership) }
    ensures shelves { IfOk result (λ copies. copies.1.shelved ≡ shelves.now.shelved) }
{
    let copy = groups.copy(alloc)?;
    match shelves.copy(alloc) {
        Ok(shelves) => Ok((copy, shelves)),
        Err(fault) => {
            drop(copy);
            Err(fault)
        }
    }
}

// Makes room for one more member in the group that the first of these moves has somebody join.
fn make_room_to_join_first(groups: &mut Groups, moves: &[Move]) -> Result<(), NoMemory>
    ensures membership { groups.new.membership ≡ groups.old.membership }
    ensures spare { groups.new.spare ≡ groups.old.spare }
    ensures joining { OnOk result (HasRoomToJoinFirst moves.now groups.new) }
{
    match moves {
        [] => Ok(()),
        [first, ..] => make_room_to_join(groups, first.group_joined()),
    }
}

fn make_room_to_join(groups: &mut Groups, group: Option<&Text>) -> Result<(), NoMemory>
    ensures membership { groups.new.membership ≡ groups.old.membership }
    ensures spare { groups.new.spare ≡ groups.old.spare }
    ensures joining { OnOk result (HasRoomToJoin (option_copied group.entry) groups.new) }
{
    match group {
        Some(name) => groups.reserve_in(name, 1),
        None => Ok(()),
    }
}

// Makes room for so many more files and sandboxes, if any.
fn reserve_files(alloc: Global, files: &mut Files, org: &Text, count: usize) -> Result<(), NoMemory>
    ensures holding { holding_of files.new org.now ≡ holding_of files.old org.now }
    ensures spare { OnOk result (count ≤ spare_of files.new org.now) }
    ensures others { OthersStay org.now files.old files.new }
{
    if count == 0 {
        return Ok(());
    }
    files.reserve(alloc, org, count)
}

// Makes moves in order. Between two of them the conditions needn't hold.
fn make_all(
    org: &Text,
    there: &mut bool,
    objects: &mut Objects,
    groups: &mut Groups,
    shelves: &mut OrgShelves,
    files: &mut Files,
    moves: Moves,
)
    requires room { HasRoom moves objects.old groups.old shelves.old (spare_of files.old org.now) }
    requires nobody { IsNobody there.old objects.old groups.old shelves.old }
    ensures state { state_from there.new objects.new groups.new shelves.new ≡ after_moves moves (state_from there.old objects.old groups.old shelves.old) }
    ensures nobody { IsNobody there.new objects.new groups.new shelves.new }
    ensures files { holding_of files.new org.now ≡ files_after org.now moves (state_from there.old objects.old groups.old shelves.old) (holding_of files.old org.now) }
    ensures others { OthersStay org.now files.old files.new }
{
    for one in moves.into_vec() {
        make(org, there, objects, groups, shelves, files, one);
    }
}

#[tactic(auto, unfolding(crate::specs::Moves::takes_room, crate::specs::FileMoves::takes_file_room, crate::specs::FileMoves::takes_shelf_room))]
fn make(
    org: &Text,
    there: &mut bool,
    objects: &mut Objects,
    groups: &mut Groups,
    shelves: &mut OrgShelves,
    files: &mut Files,
    one: Move,
)
    requires room { cond (takes_room one) 1 0 ≤ room_for objects.old groups.old }
    requires joining { HasRoomToJoin (group_joined one) groups.old }
    requires nobody { IsNobody there.old objects.old groups.old shelves.old }
    requires shelf { cond (takes_shelf_room one) 1 0 ≤ shelves.old.spare }
    requires spare { cond (takes_file_room one) 1 0 ≤ spare_of files.old org.now }
    ensures state { state_from there.new objects.new groups.new shelves.new ≡ after_move one (state_from there.old objects.old groups.old shelves.old) }
    ensures room { room_for objects.old groups.old ≤ room_for objects.new groups.new + cond (takes_room one) 1 0 }
    ensures nobody { IsNobody there.new objects.new groups.new shelves.new }
    ensures files { holding_of files.new org.now ≡ files_after_move org.now one (state_from there.old objects.old groups.old shelves.old) (holding_of files.old org.now) }
    ensures shelf { shelves.old.spare ≤ shelves.new.spare + cond (takes_shelf_room one) 1 0 }
    ensures spare { spare_of files.old org.now ≤ spare_of files.new org.now + cond (takes_file_room one) 1 0 }
    ensures others { OthersStay org.now files.old files.new }
{
    if *there {
        make_there(org, objects, groups, shelves, files, one);
    } else {
        *there = one.opens();
        drop(one);
    }
}

// The move is made of an organisation that is there.
#[tactic(auto, unfolding(crate::specs::Moves::takes_room, crate::specs::FileMoves::takes_file_room, crate::specs::FileMoves::takes_shelf_room))]
fn make_there(
    org: &Text,
    objects: &mut Objects,
    groups: &mut Groups,
    shelves: &mut OrgShelves,
    files: &mut Files,
    one: Move,
)
    requires room { cond (takes_room one) 1 0 ≤ room_for objects.old groups.old }
    requires joining { HasRoomToJoin (group_joined one) groups.old }
    requires shelf { cond (takes_shelf_room one) 1 0 ≤ shelves.old.spare }
    requires spare { cond (takes_file_room one) 1 0 ≤ spare_of files.old org.now }
    ensures state { state_from true objects.new groups.new shelves.new ≡ after_move one (state_from true objects.old groups.old shelves.old) }
    ensures room { room_for objects.old groups.old ≤ room_for objects.new groups.new + cond (takes_room one) 1 0 }
    ensures files { holding_of files.new org.now ≡ files_after_move org.now one (state_from true objects.old groups.old shelves.old) (holding_of files.old org.now) }
    ensures shelf { shelves.old.spare ≤ shelves.new.spare + cond (takes_shelf_room one) 1 0 }
    ensures spare { spare_of files.old org.now ≤ spare_of files.new org.now + cond (takes_file_room one) 1 0 }
    ensures others { OthersStay org.now files.old files.new }
{
    match one {
        Move::Open => {}
        Move::Put(key, object) => drop(objects.put(key, object.into_text())),
        Move::TakeOut(key) => drop(objects.take_out(&key)),
        Move::PutList(key, list) => objects.put_acl(key, list),
        Move::TakeList(key) => objects.take_acl(&key),
        Move::AddUser(comer) => add_user(groups, comer),
        Move::RemoveUser(name) => remove_user(objects, groups, &name),
        Move::AddClient(comer) => add_client(groups, comer),
        Move::RemoveClient(name) => remove_client(objects, groups, &name),
        Move::PutGroup(name, members) => groups.put_group(name, members.into_group()),
        Move::RemoveGroup(name) => remove_group(objects, groups, &name),
        Move::OnShelves(one) => make_on_shelves(shelves, files, org, one),
        Move::OnFiles(one) => make_on_files(files, org, one),
    }
}

fn add_user(groups: &mut Groups, comer: Comer)
    requires room { 1 ≤ groups.old.spare }
    requires joining { HasRoomToJoin (Some comer.group) groups.old }
    ensures membership { groups.new.membership ≡ joins comer.group MemberKind.User comer.name (with_user comer.name groups.old.membership) }
    ensures spare { groups.old.spare ≤ groups.new.spare + 1 }
{
    let (name, member, group) = comer.into_parts();
    groups.add_user(name);
    join(groups, &group, MemberKind::User, member);
}

fn add_client(groups: &mut Groups, comer: Comer)
    requires room { 1 ≤ groups.old.spare }
    requires joining { HasRoomToJoin (Some comer.group) groups.old }
    ensures membership { groups.new.membership ≡ joins comer.group MemberKind.Client comer.name (with_client comer.name groups.old.membership) }
    ensures spare { groups.old.spare ≤ groups.new.spare + 1 }
{
    let (name, member, group) = comer.into_parts();
    groups.add_client(name);
    join(groups, &group, MemberKind::Client, member);
}

// The member joins the group, where there is one.
fn join(groups: &mut Groups, group: &Text, kind: MemberKind, member: Text)
    requires { HasRoomToJoin (Some group.now) groups.old }
    ensures membership { groups.new.membership ≡ joins group.now kind member groups.old.membership }
    ensures spare { groups.new.spare ≡ groups.old.spare }
{
    if groups.has(MemberKind::Group, group) {
        groups.join(group, kind, member);
    }
}

fn remove_user(objects: &mut Objects, groups: &mut Groups, name: &Text)
    ensures membership { groups.new.membership ≡ leaves MemberKind.User name.now (without_user name.now groups.old.membership) }
    ensures lists { objects.new.lists ≡ lists_without_actor name.now objects.old.lists }
    ensures objects { objects.new.objects ≡ objects.old.objects }
    ensures room { room_for objects.old groups.old ≤ room_for objects.new groups.new }
{
    groups.remove_user(name);
    groups.leave_all(MemberKind::User, name);
    objects.take_actor(name);
}

fn remove_client(objects: &mut Objects, groups: &mut Groups, name: &Text)
    ensures membership { groups.new.membership ≡ leaves MemberKind.Client name.now (without_client name.now groups.old.membership) }
    ensures lists { objects.new.lists ≡ lists_without_actor name.now objects.old.lists }
    ensures objects { objects.new.objects ≡ objects.old.objects }
    ensures room { room_for objects.old groups.old ≤ room_for objects.new groups.new }
{
    groups.remove_client(name);
    groups.leave_all(MemberKind::Client, name);
    objects.take_actor(name);
}

fn remove_group(objects: &mut Objects, groups: &mut Groups, name: &Text)
    ensures membership { groups.new.membership ≡ leaves MemberKind.Group name.now (with_groups (finite.remove groups.old.membership.groups name.now) groups.old.membership) }
    ensures lists { objects.new.lists ≡ lists_without_group name.now objects.old.lists }
    ensures objects { objects.new.objects ≡ objects.old.objects }
    ensures room { room_for objects.old groups.old ≤ room_for objects.new groups.new }
{
    groups.remove_group(name);
    groups.leave_all(MemberKind::Group, name);
    objects.take_group(name);
}
