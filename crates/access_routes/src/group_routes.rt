//! The routes of groups.

ghost use Rattle.std.specs.Prelude.{◌≡◌, [], ◌∷◌, ◌++◌, Ok, IfOk, OnOk, option_map};
ghost use Rattle.membership.specs.Lists.{members_of};
ghost use Rattle.membership.specs.Members.{no_members};
ghost use Rattle.access_lists.specs.declared.starting.Container.TheVariants as container;
ghost use Rattle.doc_tree.specs.Doc.{dict, pairs_of, words};
ghost use Rattle.doc_tree.specs.Name.{is_name};
ghost use Rattle.doc_tree.specs.Part.{part_at, with_pair};
ghost use Rattle.doc_tree.specs.Tree.{doc_of};
ghost use Rattle.object_store.specs.Objects.{key};
ghost use Rattle.org_core.specs.Contexts.{seen};
ghost use Rattle.org_core.specs.Creating.{created_by, created_list as spec_created_list};
ghost use Rattle.org_core.specs.Outcomes.{IsAsDecided, does_by, shows, tells};
ghost use Rattle.org_requests.specs.Refusals.{Tells};
ghost use Rattle.org_core.specs.States.{membership_of, state_in};
ghost use Rattle.access_routes.specs.AccessRules as rules;
ghost use Rattle.access_routes.specs.GroupRoutes as spec;

use crate::operations::AccessOperation;
use crate::trees::put;
use access_lists::Container;
use doc_tree::{Fields, Kind, NoMemory, Text, Tree, is_name};
use membership::{Group as AGroup, MemberKind, TextSet, texts_tree};
use org_core::{
    Context, GroupMembers, Move, Moves, OrgState, Prepared, Stored, add_both, create_by,
    created_list, key_of, named_by, object_in_body, object_named, one_move, or_stop,
    prepared_showing, reply_showing, unmoved,
};
use org_requests::{Body, Refusal, Stop, Verb, absent, org_uri, shown_paths};
use std::alloc::Global;
use std::hash::RandomState;

/// What is asked of all groups.
pub(crate) fn groups_asked(alloc: Global, verb: Verb, body: &Body) -> Result<AccessOperation, Stop>
    ensures { Tells result (rules.groups_asked verb body.now) }
{
    match verb {
        Verb::Get => Ok(AccessOperation::ListGroups),
        Verb::Post => {
            let group = object_in_body(alloc, Kind::Group, None, body)?;
            let name = Text::from_str(alloc, named_by("groupname", group.tree()));
            drop(group);
            Ok(AccessOperation::CreateGroup(name?))
        }
        Verb::Put | Verb::Delete | Verb::Other => Err(Stop::Refused(Refusal::NotAllowed)),
    }
}

/// What is asked of a group.
pub(crate) fn group_asked(
    alloc: Global,
    name: &Text,
    verb: Verb,
    body: &Body,
) -> Result<AccessOperation, Stop>
    ensures { Tells result (rules.group_asked name.now verb body.now) }
{
    match verb {
        Verb::Get => Ok(AccessOperation::ShowGroup(name.copy(alloc)?)),
        Verb::Put => put_group(alloc, name, body),
        Verb::Delete => Ok(AccessOperation::RemoveGroup(name.copy(alloc)?)),
        Verb::Post | Verb::Other => Err(Stop::Refused(Refusal::NotAllowed)),
    }
}

fn put_group(alloc: Global, name: &Text, body: &Body) -> Result<AccessOperation, Stop>
    ensures { Tells result (rules.put_group (is_name name.now) name.now body.now) }
{
    if !is_name(name.as_str()) {
        return Err(Stop::Refused(absent(body)));
    }
    let own = name.copy(alloc)?;
    Ok(AccessOperation::ReplaceGroup(own, object_named(alloc, Kind::Group, name, body)?))
}

/// Whether the organisation has no group of this name, which may have no name's form.
pub(crate) fn lacks_group(name: &Text, state: &OrgState) -> bool
    ensures { result ≡ spec.lacks_group name.now (state_in state.now) }
{
    !(is_name(name.as_str()) && state.groups().has(MemberKind::Group, name))
}

/// 400 for the first list of a group's body that names somebody whom the organisation doesn't have: of
/// users, of clients, or of groups.
pub(crate) fn stranger(
    alloc: Global,
    group: &Stored,
    state: &OrgState,
) -> Result<Option<Refusal>, NoMemory>
    ensures { IfOk result (λ o. o ≡ spec.stranger_refusal group.now (membership_of (state_in state.now))) }
{
    if has_stranger(alloc, MemberKind::User, group, state)? {
        return bad_list(alloc, "users");
    }
    if has_stranger(alloc, MemberKind::Client, group, state)? {
        return bad_list(alloc, "clients");
    }
    if has_stranger(alloc, MemberKind::Group, group, state)? {
        return bad_list(alloc, "groups");
    }
    Ok(None)
}

fn bad_list(alloc: Global, field: &str) -> Result<Option<Refusal>, NoMemory>
    ensures { IfOk result (λ o. o ≡ Some (Refusal.BadField field.now)) }
{
    Ok(Some(Refusal::BadField(Text::from_str(alloc, field)?)))
}

fn has_stranger(
    alloc: Global,
    kind: MemberKind,
    group: &Stored,
    state: &OrgState,
) -> Result<bool, NoMemory>
    ensures { IfOk result (λ b. b ≡ spec.has_stranger kind (spec.sent kind group.now) (membership_of (state_in state.now))) }
{
    let names = sent(alloc, kind, group)?;
    Ok(
        names
            .as_slice()
            .iter()
            .any(|name| !state.groups().has(kind, name)),
    )
}

/// The names that a group's body lists as its members of a kind.
fn sent(alloc: Global, kind: MemberKind, group: &Stored) -> Result<TextSet, NoMemory>
    ensures { IfOk result (λ names. names ≡ spec.sent kind group.now) }
{
    match part(group.tree(), "actors") {
        Some(actors) => texts_at(alloc, part(actors, field_of(kind))),
        None => Ok(TextSet::new(alloc)),
    }
}

/// The field that lists the members of a kind.
fn field_of(kind: MemberKind) -> &'static str
    ensures { result.now ≡ spec.field_of kind }
{
    match kind {
        MemberKind::User => "users",
        MemberKind::Client => "clients",
        MemberKind::Group => "groups",
    }
}

fn texts_at(alloc: Global, tree: Option<&Tree>) -> Result<TextSet, NoMemory>
    ensures { IfOk result (λ names. names ≡ spec.texts_found (option_map (λ t. doc_of t.now) tree.entry)) }
{
    let Some(tree) = tree else {
        return Ok(TextSet::new(alloc));
    };
    match TextSet::read(alloc, tree)? {
        Some(names) => Ok(names),
        None => Ok(TextSet::new(alloc)),
    }
}

/// The part of a tree at a key: only a Dict has any.
fn part<'a>(tree: &'a Tree, field: &str) -> Option<&'a Tree>
    ensures { option_map (λ t. doc_of t.now) result ≡ part_at field.now (doc_of tree.now) }
{
    match tree {
        Tree::Dict(fields) => fields.get(field),
        Tree::Null | Tree::Bool(_) | Tree::Whole(_) | Tree::Words(_) | Tree::List(_) => None,
    }
}

/// Each group's name with its path.
pub(crate) fn list(alloc: Global, context: Context<'_>) -> Result<Prepared, Stop>
    ensures { IsAsDecided result (spec.groups_listed (seen context.entry)).answer }
{
    let front = groups_front(alloc, context.org)?;
    let names = context.state.groups().names(alloc, MemberKind::Group)?;
    let reply = shown_paths(alloc, front.as_str(), names.as_slice());
    or_stop(unmoved(alloc, reply))
}

/// A group is created without members.
pub(crate) fn create(alloc: Global, context: Context<'_>, name: Text) -> Result<Prepared, Stop>
    ensures { IsAsDecided result (spec.group_created (seen context.entry) name).answer }
{
    let path = group_path(alloc, context.org, &name)?;
    or_stop(created_at(alloc, context, path, name))
}

fn group_path(alloc: Global, org: &Text, name: &Text) -> Result<Text, NoMemory>
    ensures { IfOk result (λ path. path ≡ spec.groups_front org.now ++ name.now) }
{
    Text::joined(alloc, groups_front(alloc, org)?.as_str(), name.as_str())
}

/// 201 with the path of a new group.
fn created_at(
    alloc: Global,
    context: Context<'_>,
    path: Text,
    name: Text,
) -> Result<Prepared, NoMemory>
    ensures { IfOk result (λ p. IsAsDecided (Ok p) (created_by path (Move.PutGroup name no_members ∷ Move.PutList (key Kind.Group name) (spec_created_list container.Groups (seen context.entry)) ∷ [])).answer) }
{
    let list = list_comes(alloc, context, &name)?;
    let mut moves = Moves::new(alloc);
    add_group(alloc, context, name, list, &mut moves)?;
    create_by(alloc, path, moves)
}

/// The move by which the list of a new group comes.
fn list_comes(alloc: Global, context: Context<'_>, name: &Text) -> Result<Move, NoMemory>
    ensures { IfOk result (λ one. one ≡ Move.PutList (key Kind.Group name.now) (spec_created_list container.Groups (seen context.entry))) }
{
    let key = key_of(alloc, Kind::Group, name.as_str())?;
    Ok(Move::PutList(key, created_list(alloc, context, Container::Groups)?))
}

/// Adds the move by which a group comes without members, and behind it the one by which its list comes.
fn add_group(
    alloc: Global,
    context: Context<'_>,
    name: Text,
    list: Move,
    moves: &mut Moves,
) -> Result<(), NoMemory>
    requires { moves.old ≡ [] }
    ensures { OnOk result (moves.new ≡ Move.PutGroup name no_members ∷ list ∷ []) }
{
    match members(alloc, context.state.hasher(), &[], &[], &[]) {
        Ok(nobody) => add_both(moves, Move::PutGroup(name, nobody), list),
        Err(fault) => {
            drop(list);
            Err(fault)
        }
    }
}

/// A group is shown.
pub(crate) fn show(alloc: Global, context: Context<'_>, name: Text) -> Result<Prepared, Stop>
    ensures { IsAsDecided result (tells (spec.group_shown context.entry.org.now name (state_in context.entry.state.now))).answer }
{
    let tree = kept_tree(alloc, context, &name)?;
    or_stop(prepared_showing(alloc, tree))
}

/// The members of a group are those that the body lists.
pub(crate) fn replace(
    alloc: Global,
    context: Context<'_>,
    name: Text,
    group: Stored,
) -> Result<Prepared, Stop>
    ensures { IsAsDecided result (spec.group_replaced (seen context.entry) name group).answer }
{
    let prepared = replaced(alloc, context, name, &group);
    drop(group);
    or_stop(prepared)
}

fn replaced(
    alloc: Global,
    context: Context<'_>,
    name: Text,
    group: &Stored,
) -> Result<Prepared, NoMemory>
    ensures { IfOk result (λ p. IsAsDecided (Ok p) (spec.group_replaced (seen context.entry) name group.now).answer) }
{
    let users = sent(alloc, MemberKind::User, group)?;
    let clients = sent(alloc, MemberKind::Client, group)?;
    let groups = sent(alloc, MemberKind::Group, group)?;
    let (users, clients, groups) = (users.as_slice(), clients.as_slice(), groups.as_slice());
    put_told(alloc, context, name, users, clients, groups)
}

/// 200 with a group of these members, which is put in.
fn put_told(
    alloc: Global,
    context: Context<'_>,
    name: Text,
    users: &[Text],
    clients: &[Text],
    groups: &[Text],
) -> Result<Prepared, NoMemory>
    ensures { IfOk result (λ p. IsAsDecided (Ok p) (does_by (shows (spec.group_doc context.entry.org.now name users.now clients.now groups.now)) (Move.PutGroup name (members_of users.now clients.now groups.now) ∷ []) 0).answer) }
{
    let tree = group_tree(alloc, context.org, &name, users, clients, groups)?;
    let reply = reply_showing(alloc, tree)?;
    let members = members(alloc, context.state.hasher(), users, clients, groups)?;
    let moves = one_move(alloc, Move::PutGroup(name, members))?;
    Ok(Prepared { reply, moves })
}

fn members(
    alloc: Global,
    hasher: RandomState,
    users: &[Text],
    clients: &[Text],
    groups: &[Text],
) -> Result<GroupMembers, NoMemory>
    ensures { IfOk result (λ members. members ≡ members_of users.now clients.now groups.now) }
{
    let group = AGroup::with(alloc, hasher, users, clients, groups)?;
    Ok(GroupMembers::of(group))
}

/// A group goes, out of every group and every list.
pub(crate) fn remove(alloc: Global, context: Context<'_>, name: Text) -> Result<Prepared, Stop>
    ensures { IsAsDecided result (spec.group_removed (seen context.entry) name).answer }
{
    let tree = kept_tree(alloc, context, &name)?;
    let reply = reply_showing(alloc, tree)?;
    let moves = removal(alloc, name)?;
    Ok(Prepared { reply, moves })
}

/// The moves by which a group goes, and its access list with it.
fn removal(alloc: Global, name: Text) -> Result<Moves, NoMemory>
    ensures { IfOk result (λ moves. moves ≡ Move.TakeList (key Kind.Group name) ∷ Move.RemoveGroup name ∷ []) }
{
    let key = key_of(alloc, Kind::Group, name.as_str())?;
    let mut moves = Moves::new(alloc);
    add_both(&mut moves, Move::TakeList(key), Move::RemoveGroup(name)).and(Ok(moves))
}

/// The tree of a group as the organisation has it.
fn kept_tree(alloc: Global, context: Context<'_>, name: &Text) -> Result<Tree, NoMemory>
    ensures { IfOk result (λ tree. doc_of tree ≡ spec.kept_doc context.entry.org.now name.now (state_in context.entry.state.now)) }
{
    let groups = context.state.groups();
    let users = groups.members(alloc, name, MemberKind::User)?;
    let clients = groups.members(alloc, name, MemberKind::Client)?;
    let within = groups.members(alloc, name, MemberKind::Group)?;
    group_tree(
        alloc,
        context.org,
        name,
        users.as_slice(),
        clients.as_slice(),
        within.as_slice(),
    )
}

/// The tree that shows a group.
fn group_tree(
    alloc: Global,
    org: &Text,
    name: &Text,
    users: &[Text],
    clients: &[Text],
    groups: &[Text],
) -> Result<Tree, NoMemory>
    ensures { IfOk result (λ tree. doc_of tree ≡ spec.group_doc org.now name.now users.now clients.now groups.now) }
{
    let mut fields = Fields::with_capacity(alloc, 7)?;
    put_group_fields(alloc, org, name, users, clients, groups, &mut fields).and(Ok(Tree::Dict(
        fields,
    )))
}

/// Puts what is told of a group.
fn put_group_fields(
    alloc: Global,
    org: &Text,
    name: &Text,
    users: &[Text],
    clients: &[Text],
    groups: &[Text],
    fields: &mut Fields,
) -> Result<(), NoMemory>
    requires { fields.old ≡ [] }
    ensures { OnOk result (dict (pairs_of fields.new) ≡ spec.group_doc org.now name.now users.now clients.now groups.now) }
{
    put(alloc, fields, "actors", actors_tree(alloc, clients, users)?)?;
    put(alloc, fields, "clients", texts_tree(alloc, clients)?)?;
    put_text(alloc, fields, "groupname", name)?;
    put(alloc, fields, "groups", texts_tree(alloc, groups)?)?;
    put_text(alloc, fields, "name", name)?;
    put_text(alloc, fields, "orgname", org)?;
    put(alloc, fields, "users", texts_tree(alloc, users)?)
}

fn put_text(alloc: Global, fields: &mut Fields, key: &str, text: &Text) -> Result<(), NoMemory>
    ensures { OnOk result (fields.new ≡ with_pair key.now (words text.now) fields.old) }
{
    put(alloc, fields, key, Tree::Words(text.copy(alloc)?))
}

/// Clients and users together, in the order of their bytes.
fn actors_tree(alloc: Global, clients: &[Text], users: &[Text]) -> Result<Tree, NoMemory>
    ensures { IfOk result (λ tree. doc_of tree ≡ spec.actors_doc clients.now users.now) }
{
    let mut actors = Vec::with_capacity(alloc, clients.len().saturating_add(users.len()))?;
    add_copies(alloc, clients, &mut actors)?;
    add_copies(alloc, users, &mut actors)?;
    TextSet::of(actors).tree(alloc)
}

fn add_copies(alloc: Global, texts: &[Text], copies: &mut Vec<Text>) -> Result<(), NoMemory>
    ensures { OnOk result (copies.new.items ≡ copies.old.items ++ texts.now) }
{
    for text in texts {
        copies.push(text.copy(alloc)?)?;
    }
    Ok(())
}

/// The front of the paths of groups.
fn groups_front(alloc: Global, org: &Text) -> Result<Text, NoMemory>
    ensures { IfOk result (λ front. front ≡ spec.groups_front org.now) }
{
    Text::joined(alloc, org_uri(alloc, org)?.as_str(), "/groups/")
}
