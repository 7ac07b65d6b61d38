//! The routes of access lists.

ghost use Rattle.std.specs.Prelude.{◌≡◌, Ok, Some, IfOk};
ghost use Rattle.access_lists.specs.Strangers.{first_stranger};
ghost use Rattle.doc_tree.specs.Name.{is_name};
ghost use Rattle.doc_tree.specs.Tree.{doc_of};
ghost use Rattle.org_requests.specs.Documents as bodies;
ghost use Rattle.org_core.specs.Outcomes.{IsAsDecided};
ghost use Rattle.org_requests.specs.Refusals.{Tells};
ghost use Rattle.org_core.specs.States.{list_in, membership_of, state_in};
ghost use Rattle.access_routes.specs.AccessLists as spec;
ghost use Rattle.access_routes.specs.AccessRules as rules;

use crate::operations::AccessOperation;
use access_lists::{Acl, AclAt, AclFault, Entry, Perm, Stranger, acl_tree, read_acl};
use doc_tree::{Fields, Kind, NoMemory, Text, Tree, is_name};
use object_store::Key;
use org_core::{
    Context, Move, Moves, OrgState, Prepared, key_of, one_move, or_stop, prepared_showing,
    reply_showing, with_moves,
};
use org_requests::{Body, Refusal, Stop, Verb, absent, document_in};
use std::alloc::Global;

/// What is asked of an access list.
pub(crate) fn list_asked(
    alloc: Global,
    collection: &Text,
    name: &Text,
    verb: Verb,
) -> Result<AccessOperation, Stop>
    ensures { Tells result (rules.list_asked collection.now name.now verb) }
{
    match verb {
        Verb::Get => showing_list(alloc, kind_at(collection.as_str()), name),
        Verb::Post | Verb::Put | Verb::Delete | Verb::Other => {
            Err(Stop::Refused(Refusal::NotAllowed))
        }
    }
}

fn showing_list(alloc: Global, kind: Option<Kind>, name: &Text) -> Result<AccessOperation, Stop>
    ensures { Tells result (rules.showing_list kind name.now) }
{
    match kind {
        Some(kind) => Ok(AccessOperation::ShowList(key_of(alloc, kind, name.as_str())?)),
        None => Err(Stop::Refused(Refusal::NotFound)),
    }
}

/// What is asked of an entry of an access list.
pub(crate) fn entry_asked(
    alloc: Global,
    collection: &Text,
    name: &Text,
    word: &Text,
    verb: Verb,
    body: &Body,
) -> Result<AccessOperation, Stop>
    ensures { Tells result (rules.entry_asked collection.now name.now word.now verb body.now) }
{
    match verb {
        Verb::Put => {
            let kind = kind_at(collection.as_str());
            put_entry(alloc, kind, name, permission_at(word.as_str()), body)
        }
        Verb::Get | Verb::Post | Verb::Delete | Verb::Other => {
            Err(Stop::Refused(Refusal::NotAllowed))
        }
    }
}

fn put_entry(
    alloc: Global,
    kind: Option<Kind>,
    name: &Text,
    permission: Option<Perm>,
    body: &Body,
) -> Result<AccessOperation, Stop>
    ensures { Tells result (rules.put_entry (is_name name.now) kind name.now permission body.now) }
{
    if !is_name(name.as_str()) {
        return Err(Stop::Refused(absent(body)));
    }
    match (kind, permission) {
        (Some(kind), Some(permission)) => {
            let key = key_of(alloc, kind, name.as_str())?;
            let entry = entry_in(alloc, permission, body)?;
            Ok(AccessOperation::ReplaceEntry(key, permission, entry))
        }
        _ => Err(Stop::Refused(absent(body))),
    }
}

/// The kind of the objects of a collection whose objects have access lists.
fn kind_at(collection: &str) -> Option<Kind>
    ensures { result ≡ spec.kind_at collection.now }
{
    match collection {
        "nodes" => Some(Kind::Node),
        "roles" => Some(Kind::Role),
        "environments" => Some(Kind::Environment),
        "clients" => Some(Kind::Client),
        "groups" => Some(Kind::Group),
        "containers" => Some(Kind::Container),
        "data" => Some(Kind::Bag),
        "cookbooks" => Some(Kind::Cookbook),
        "cookbook_artifacts" => Some(Kind::Artifact),
        "policies" => Some(Kind::Policy),
        "policy_groups" => Some(Kind::PolicyGroup),
        _ => None,
    }
}

/// The permission of a word.
fn permission_at(word: &str) -> Option<Perm>
    ensures { result ≡ spec.permission_at word.now }
{
    match word {
        "create" => Some(Perm::Create),
        "read" => Some(Perm::Read),
        "update" => Some(Perm::Update),
        "delete" => Some(Perm::Delete),
        "grant" => Some(Perm::Grant),
        _ => None,
    }
}

/// The entry that a body gives for a permission.
fn entry_in(alloc: Global, permission: Perm, body: &Body) -> Result<Entry, Stop>
    ensures { Tells result (spec.entry_in permission (bodies.document_in body.now)) }
{
    match document_in(body) {
        Ok(tree) => entry_of(alloc, permission, tree),
        Err(refusal) => Err(Stop::Refused(refusal)),
    }
}

fn entry_of(alloc: Global, permission: Perm, tree: &Tree) -> Result<Entry, Stop>
    ensures { Tells result (spec.entry_in permission (Ok (doc_of tree.now))) }
{
    match read_acl(alloc, tree, permission) {
        Ok(entry) => Ok(entry),
        Err(AclFault::NotAnAcl) => {
            let field = Text::from_str(alloc, permission.word())?;
            Err(Stop::Refused(Refusal::BadField(field)))
        }
        Err(AclFault::NoMemory) => Err(Stop::NoMemory),
    }
}

/// Whether the object of this key has no access list, since it isn't there, or its name has no name's
/// form.
pub(crate) fn lacks_list(key: &Key, state: &OrgState) -> bool
    ensures { result ≡ spec.lacks_list key.now (state_in state.now) }
{
    !(is_name(key.name.as_str()) && state.acl(key).is_some())
}

/// 400 for the list of an entry that names somebody whom the organisation doesn't have.
pub(crate) fn stranger(
    alloc: Global,
    entry: &Entry,
    state: &OrgState,
) -> Result<Option<Refusal>, NoMemory>
    ensures { IfOk result (λ o. o ≡ spec.stranger_told (first_stranger (membership_of (state_in state.now)) entry.now)) }
{
    let field = match access_lists::first_stranger(state.groups(), entry) {
        None => return Ok(None),
        Some(Stranger::Actor(_)) => "actors",
        Some(Stranger::Group(_)) => "groups",
    };
    Ok(Some(Refusal::BadField(Text::from_str(alloc, field)?)))
}

/// The whole list is shown.
pub(crate) fn show(alloc: Global, context: Context<'_>, key: Key) -> Result<Prepared, Stop>
    ensures { IsAsDecided result (spec.list_shown key (state_in context.entry.state.now)).answer }
{
    let tree = list_tree(alloc, context.state.acl(&key))?;
    or_stop(prepared_showing(alloc, tree))
}

fn list_tree(alloc: Global, list: Option<AclAt<'_>>) -> Result<Tree, NoMemory>
    ensures { IfOk result (λ tree. doc_of tree ≡ spec.list_doc list.entry) }
{
    match list {
        Some(list) => acl_tree(alloc, list),
        None => Ok(Tree::Null),
    }
}

/// One entry is replaced, and the others stay.
pub(crate) fn replace(
    alloc: Global,
    context: Context<'_>,
    key: Key,
    permission: Perm,
    entry: Entry,
) -> Result<Prepared, Stop>
    ensures { IsAsDecided result (spec.entry_replaced key permission entry (state_in context.entry.state.now)).answer }
{
    let moves = entry_moves(alloc, key, permission, entry, context.state);
    let reply = reply_showing(alloc, Tree::Dict(Fields::new(alloc)));
    or_stop(with_moves(reply, moves))
}

fn entry_moves(
    alloc: Global,
    key: Key,
    permission: Perm,
    entry: Entry,
    state: &OrgState,
) -> Result<Moves, NoMemory>
    ensures { IfOk result (λ moves. moves ≡ spec.entry_moves key permission entry (list_in (state_in state.now) key)) }
{
    match state.acl(&key) {
        Some(list) => {
            let list = with_entry(alloc, &list, permission, entry)?;
            one_move(alloc, Move::PutList(key, list))
        }
        None => {
            drop(entry);
            Ok(Moves::new(alloc))
        }
    }
}

/// A copy of a list with another entry for one permission.
fn with_entry(
    alloc: Global,
    list: &AclAt<'_>,
    permission: Perm,
    entry: Entry,
) -> Result<Acl, NoMemory>
    ensures { IfOk result (λ changed. changed ≡ spec.with_entry permission entry list.now) }
{
    match list.copy(alloc) {
        Ok(mut changed) => {
            change(&mut changed, permission, entry);
            Ok(changed)
        }
        Err(fault) => {
            drop(entry);
            Err(fault)
        }
    }
}

/// Gives a list another entry for one permission.
fn change(list: &mut Acl, permission: Perm, entry: Entry)
    ensures { list.new ≡ spec.with_entry permission entry list.old }
{
    match permission {
        Perm::Create => list.create = entry,
        Perm::Read => list.read = entry,
        Perm::Update => list.update = entry,
        Perm::Delete => list.delete = entry,
        Perm::Grant => list.grant = entry,
    }
}
