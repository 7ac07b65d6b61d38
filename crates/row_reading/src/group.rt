//! The bodies of groups.
ghost use Rattle.compact_json.specs.Compact.{IsCompact};
ghost use Rattle.doc_tree.specs.Doc.{dict, pairs_of};
ghost use Rattle.doc_tree.specs.Tree.{doc_of};
ghost use Rattle.membership.specs.TextSets.{in_order};
ghost use Rattle.object_forms.specs.GroupBodies.{actors_doc, group_doc};
ghost use Rattle.org_rows.specs.Bodies.{group_body};
ghost use Rattle.org_rows.specs.Reading as spec;
ghost use Rattle.row_reading.specs.Bodies.{members_listed};
ghost use Rattle.std.specs.Prelude.{◌≡◌, [], IfOk, IfSome, IsTrue, OnOk, bytes_eq, option_map};

use crate::bodies::{is_text_of, part_at, put, tree_in};
use doc_tree::{Fields, Name, NoMemory, Text, Tree};
use membership::{Group, TextSet};
use std::alloc::Global;
use std::hash::RandomState;

/// The members that a body lists, in order.
#[derive(Drop)]
pub(crate) struct MemberLists {
    pub(crate) users: TextSet,
    pub(crate) clients: TextSet,
    pub(crate) groups: TextSet,
}

/// The group of this name that a body says.
pub(crate) fn read_group(
    alloc: Global,
    hasher: RandomState,
    body: &[u8],
    name: &Name,
) -> Result<Option<Group>, NoMemory>
    ensures { IfOk result (λ found. option_map (λ group. group.members) found ≡ spec.said (group_body name.now) spec.members_in body.now) }
{
    match read_lists(alloc, body, name)? {
        Some(lists) => {
            let group = group_of(alloc, hasher, &lists);
            drop(lists);
            Ok(Some(group?))
        }
        None => Ok(None),
    }
}

fn group_of(alloc: Global, hasher: RandomState, lists: &MemberLists) -> Result<Group, NoMemory>
    ensures { IfOk result (λ group. group.members ≡ members_listed lists.now) }
{
    Group::with(
        alloc,
        hasher,
        lists.users.as_slice(),
        lists.clients.as_slice(),
        lists.groups.as_slice(),
    )
}

fn read_lists(alloc: Global, body: &[u8], name: &Name) -> Result<Option<MemberLists>, NoMemory>
    ensures { IfOk result (λ found. option_map members_listed found ≡ spec.said (group_body name.now) spec.members_in body.now) }
{
    match tree_in(alloc, body)? {
        Some(tree) => {
            let found = lists_in(alloc, &tree);
            drop(tree);
            if_written(alloc, body, name, found?)
        }
        None => Ok(None),
    }
}

fn lists_in(alloc: Global, tree: &Tree) -> Result<Option<MemberLists>, NoMemory>
    ensures { IfOk result (λ found. option_map members_listed found ≡ spec.members_in (doc_of tree.now)) }
{
    match part_at(tree, "actors") {
        Some(actors) => lists_among(alloc, actors),
        None => Ok(None),
    }
}

fn lists_among(alloc: Global, actors: &Tree) -> Result<Option<MemberLists>, NoMemory>
    ensures { IfOk result (λ found. option_map members_listed found ≡ spec.members_among (doc_of actors.now)) }
{
    let Some(clients) = texts_at(alloc, actors, "clients")? else {
        return Ok(None);
    };
    let Some(groups) = texts_at(alloc, actors, "groups")? else {
        return Ok(None);
    };
    match texts_at(alloc, actors, "users")? {
        Some(users) => Ok(Some(MemberLists {
            users,
            clients,
            groups,
        })),
        None => Ok(None),
    }
}

/// The texts of the list at a key, in order.
pub(crate) fn texts_at(alloc: Global, tree: &Tree, key: &str) -> Result<Option<TextSet>, NoMemory>
    ensures { IfOk result (λ texts. texts ≡ option_map in_order (spec.texts_at key.now (doc_of tree.now))) }
{
    match part_at(tree, key) {
        Some(part) => TextSet::read(alloc, part),
        None => Ok(None),
    }
}

/// The lists that were found, where the body is what is written of them.
fn if_written(
    alloc: Global,
    body: &[u8],
    name: &Name,
    found: Option<MemberLists>,
) -> Result<Option<MemberLists>, NoMemory>
    ensures found { IfOk result (λ kept. option_map members_listed kept ≡ spec.written_as (group_body name.now) body.now (option_map members_listed found)) }
    ensures compact { IfOk result (λ kept. IfSome kept (λ _. IsCompact body.now)) }
{
    match found {
        Some(lists) => {
            let same = is_written(alloc, body, name, &lists);
            Ok(same?.then_some(lists))
        }
        None => Ok(None),
    }
}

fn is_written(
    alloc: Global,
    body: &[u8],
    name: &Name,
    lists: &MemberLists,
) -> Result<bool, NoMemory>
    ensures same { IfOk result (λ same. same ≡ bytes_eq (group_body name.now (members_listed lists.now)) body.now) }
    ensures compact { IfOk result (λ same. IsTrue same → IsCompact body.now) }
{
    // The texts of each list are in order.
    let _users = lists.users.as_slice();
    let _clients = lists.clients.as_slice();
    let _groups = lists.groups.as_slice();
    let tree = group_tree(alloc, name, lists)?;
    let same = is_text_of(alloc, body, &tree);
    drop(tree);
    same
}

/// The document of a group.
fn group_tree(alloc: Global, name: &Name, lists: &MemberLists) -> Result<Tree, NoMemory>
    ensures { IfOk result (λ tree. doc_of tree ≡ group_doc (actors_doc lists.now.clients lists.now.groups lists.now.users) name.now) }
{
    let mut fields = Fields::with_capacity(alloc, 2)?;
    put_fields(alloc, &mut fields, name, lists).and(Ok(Tree::Dict(fields)))
}

fn put_fields(
    alloc: Global,
    fields: &mut Fields,
    name: &Name,
    lists: &MemberLists,
) -> Result<(), NoMemory>
    requires { fields.old ≡ [] }
    ensures { OnOk result (dict (pairs_of fields.new) ≡ group_doc (actors_doc lists.now.clients lists.now.groups lists.now.users) name.now) }
{
    put(alloc, fields, "actors", actors_tree(alloc, lists)?)?;
    let name = Text::from_str(alloc, name.as_str())?;
    put(alloc, fields, "groupname", Tree::Words(name))
}

fn actors_tree(alloc: Global, lists: &MemberLists) -> Result<Tree, NoMemory>
    ensures { IfOk result (λ tree. doc_of tree ≡ actors_doc lists.now.clients lists.now.groups lists.now.users) }
{
    let mut fields = Fields::with_capacity(alloc, 3)?;
    put_lists(alloc, &mut fields, lists).and(Ok(Tree::Dict(fields)))
}

fn put_lists(alloc: Global, fields: &mut Fields, lists: &MemberLists) -> Result<(), NoMemory>
    requires { fields.old ≡ [] }
    ensures { OnOk result (dict (pairs_of fields.new) ≡ actors_doc lists.now.clients lists.now.groups lists.now.users) }
{
    put(alloc, fields, "clients", lists.clients.tree(alloc)?)?;
    put(alloc, fields, "groups", lists.groups.tree(alloc)?)?;
    put(alloc, fields, "users", lists.users.tree(alloc)?)
}
