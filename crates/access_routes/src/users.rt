//! The routes of users.

ghost use Rattle.std.specs.Prelude.{◌≡◌, ◌++◌, Ok, IfOk, codes, option_and_then, option_copied, option_map};
ghost use Rattle.doc_tree.specs.Tree.{doc_of};
ghost use Rattle.doc_tree.specs.Doc.{words};
ghost use Rattle.object_forms.specs.Forms.{name_from};
ghost use Rattle.org_requests.specs.Documents as bodies;
ghost use Rattle.org_core.specs.Contexts.{seen};
ghost use Rattle.org_core.specs.Outcomes.{IsAsDecided, shows, tells};
ghost use Rattle.org_requests.specs.Refusals.{Tells};
ghost use Rattle.org_requests.specs.Replies.{one_key};
ghost use Rattle.org_core.specs.States.{state_in};
ghost use Rattle.access_routes.specs.AccessRules as rules;
ghost use Rattle.access_routes.specs.Users as spec;

use crate::operations::AccessOperation;
use crate::trees::put;
use doc_tree::{Fields, NoMemory, Text, Tree, Trees, is_name};
use membership::MemberKind;
use org_core::{
    Comer, Context, Move, OrgState, Prepared, create_by, one_move, or_stop, prepared_showing,
    reply_showing,
};
use org_requests::{Body, Refusal, Stop, Verb, document_in, org_uri};
use std::alloc::Global;

/// What is asked of all users.
pub(crate) fn users_asked(alloc: Global, verb: Verb, body: &Body) -> Result<AccessOperation, Stop>
    ensures { Tells result (rules.users_asked verb body.now) }
{
    match verb {
        Verb::Get => Ok(AccessOperation::ListUsers),
        Verb::Post => Ok(AccessOperation::CreateUser(username_in(alloc, body)?)),
        Verb::Put | Verb::Delete | Verb::Other => Err(Stop::Refused(Refusal::NotAllowed)),
    }
}

/// What is asked of a user.
pub(crate) fn user_asked(alloc: Global, name: &Text, verb: Verb) -> Result<AccessOperation, Stop>
    ensures { Tells result (rules.user_asked name.now verb) }
{
    match verb {
        Verb::Get => Ok(AccessOperation::ShowUser(name.copy(alloc)?)),
        Verb::Delete => Ok(AccessOperation::RemoveUser(name.copy(alloc)?)),
        Verb::Post | Verb::Put | Verb::Other => Err(Stop::Refused(Refusal::NotAllowed)),
    }
}

/// The name of the user that a body gives: the Name at its key `username`.
fn username_in(alloc: Global, body: &Body) -> Result<Text, Stop>
    ensures { Tells result (spec.username_in (bodies.document_in body.now)) }
{
    match document_in(body) {
        Ok(tree) => username_of(alloc, tree),
        Err(refusal) => Err(Stop::Refused(refusal)),
    }
}

fn username_of(alloc: Global, tree: &Tree) -> Result<Text, Stop>
    ensures { Tells result (spec.username_in (Ok (doc_of tree.now))) }
{
    match name_at(tree) {
        Some(name) => Ok(Text::from_str(alloc, name)?),
        None => Err(Stop::Refused(Refusal::BadField(Text::from_str(alloc, "username")?))),
    }
}

fn name_at(tree: &Tree) -> Option<&str>
    ensures { option_copied result ≡ spec.username_at (doc_of tree.now) }
{
    match tree {
        Tree::Dict(fields) => name_found(fields.get("username")),
        Tree::Null | Tree::Bool(_) | Tree::Whole(_) | Tree::Words(_) | Tree::List(_) => None,
    }
}

fn name_found(found: Option<&Tree>) -> Option<&str>
    ensures { option_copied result ≡ option_and_then name_from (option_map (λ t. doc_of t.now) found.entry) }
{
    match found {
        Some(Tree::Words(text)) => name_in(text.as_str()),
        _ => None,
    }
}

fn name_in(text: &str) -> Option<&str>
    ensures { option_copied result ≡ name_from (words text.now) }
{
    if is_name(text) { Some(text) } else { None }
}

/// Whether the organisation has no user of this name, which may have no name's form.
pub(crate) fn lacks_user(name: &Text, state: &OrgState) -> bool
    ensures { result ≡ spec.lacks_user name.now (state_in state.now) }
{
    !(is_name(name.as_str()) && state.groups().has(MemberKind::User, name))
}

/// Each user, in the order of their names.
pub(crate) fn list(alloc: Global, context: Context<'_>) -> Result<Prepared, Stop>
    ensures { IsAsDecided result (spec.users_listed (seen context.entry)).answer }
{
    let names = context.state.groups().names(alloc, MemberKind::User)?;
    let tree = users_tree(alloc, names.as_slice())?;
    or_stop(prepared_showing(alloc, tree))
}

fn users_tree(alloc: Global, names: &[Text]) -> Result<Tree, NoMemory>
    ensures { IfOk result (λ tree. doc_of tree ≡ spec.users_doc names.now) }
{
    let mut trees = Trees::with_capacity(alloc, names.len())?;
    for name in names {
        trees.push(listed_tree(alloc, name)?)?;
    }
    Ok(Tree::List(trees))
}

fn listed_tree(alloc: Global, name: &Text) -> Result<Tree, NoMemory>
    ensures { IfOk result (λ tree. doc_of tree ≡ spec.listed_doc name.now) }
{
    let user = user_tree(alloc, name)?;
    dict_of(alloc, "user", user)
}

fn user_tree(alloc: Global, name: &Text) -> Result<Tree, NoMemory>
    ensures { IfOk result (λ tree. doc_of tree ≡ spec.user_doc name.now) }
{
    dict_of(alloc, "username", Tree::Words(name.copy(alloc)?))
}

/// A dict of one key.
fn dict_of(alloc: Global, key: &str, tree: Tree) -> Result<Tree, NoMemory>
    ensures { IfOk result (λ dict. doc_of dict ≡ one_key key.now (doc_of tree)) }
{
    let mut fields = Fields::new(alloc);
    put(alloc, &mut fields, key, tree).and(Ok(Tree::Dict(fields)))
}

/// A user comes and joins the group `users`.
pub(crate) fn create(alloc: Global, context: Context<'_>, name: Text) -> Result<Prepared, Stop>
    ensures { IsAsDecided result (spec.user_created (seen context.entry) name).answer }
{
    let path = user_path(alloc, context.org, &name)?;
    let moves = one_move(alloc, user_comes(alloc, &name)?)?;
    or_stop(create_by(alloc, path, moves))
}

fn user_path(alloc: Global, org: &Text, name: &Text) -> Result<Text, NoMemory>
    ensures { IfOk result (λ path. path ≡ spec.users_front org.now ++ name.now) }
{
    Text::joined(alloc, users_front(alloc, org)?.as_str(), name.as_str())
}

/// The move by which a user comes.
fn user_comes(alloc: Global, name: &Text) -> Result<Move, NoMemory>
    ensures { IfOk result (λ one. one ≡ Move.AddUser (record { name = name.now; group = codes "users" })) }
{
    Ok(Move::AddUser(Comer::of(alloc, name.as_str(), "users")?))
}

/// A user is shown.
pub(crate) fn show(alloc: Global, name: Text) -> Result<Prepared, Stop>
    ensures { IsAsDecided result (tells (shows (spec.user_doc name))).answer }
{
    let tree = user_tree(alloc, &name)?;
    or_stop(prepared_showing(alloc, tree))
}

/// A user goes, out of every group and every list.
pub(crate) fn remove(alloc: Global, name: Text) -> Result<Prepared, Stop>
    ensures { IsAsDecided result (spec.user_removed name).answer }
{
    let tree = user_tree(alloc, &name)?;
    let reply = reply_showing(alloc, tree)?;
    let moves = one_move(alloc, Move::RemoveUser(name))?;
    Ok(Prepared { reply, moves })
}

/// The front of the paths of users.
fn users_front(alloc: Global, org: &Text) -> Result<Text, NoMemory>
    ensures { IfOk result (λ front. front ≡ spec.users_front org.now) }
{
    Text::joined(alloc, org_uri(alloc, org)?.as_str(), "/users/")
}
