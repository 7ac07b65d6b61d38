//! The bodies of groups, and what is stored of each.
ghost use Rattle.std.specs.Prelude.{◌≡◌, IfOk, OnOk, Some, None, cond, codes, is_some, option_and_then, option_copied, option_map};
ghost use Rattle.doc_tree.specs.Doc.{pairs_of};
ghost use Rattle.doc_tree.specs.Name as names;
ghost use Rattle.doc_tree.specs.Part.{pair_at, with_pair};
ghost use Rattle.doc_tree.specs.Tree.{doc_of};
ghost use Rattle.object_forms.specs.Forms as forms;
ghost use Rattle.object_forms.specs.GroupBodies as spec;
ghost use Rattle.object_forms.specs.Outcomes.{Gives};

use crate::fault::{FormFault, bad_field};
use crate::forms::is_exactly;
use doc_tree::{Fields, Name, NoMemory, Text, Tree, is_name};
use membership::TextSet;
use std::alloc::Global;

/// The group that a body gives, as it is stored.
pub(crate) fn read_group(alloc: Global, tree: &Tree, name: Option<&Name>) -> Result<Tree, FormFault>
    ensures { Gives result (spec.group_from (option_copied name.entry) (doc_of tree.now)) }
{
    match tree {
        Tree::Dict(body) => group_in(alloc, body, name),
        Tree::Null | Tree::Bool(_) | Tree::Whole(_) | Tree::Words(_) | Tree::List(_) => {
            Err(bad_field(alloc, "groupname"))
        }
    }
}

fn group_in(alloc: Global, body: &Fields, name: Option<&Name>) -> Result<Tree, FormFault>
    ensures { Gives result (spec.group_in (option_copied name.entry) (pairs_of body.now)) }
{
    let key = group_key(body);
    match group_name(name, body.get(key)) {
        Some(text) => group_with(alloc, group_actors(alloc, body, name)?, text),
        None => Err(bad_field(alloc, key)),
    }
}

/// The key by which a body names a group.
fn group_key(body: &Fields) -> &'static str
    ensures { result.now ≡ spec.group_key (pairs_of body.now) }
{
    match body.get("groupname") {
        Some(_) => "groupname",
        None => key_without(body),
    }
}

fn key_without(body: &Fields) -> &'static str
    ensures { result.now ≡ cond (is_some (pair_at (codes "name") (pairs_of body.now))) (codes "name") (codes "groupname") }
{
    match body.get("name") {
        Some(_) => "name",
        None => "groupname",
    }
}

/// The name of a group, where it has one.
fn group_name<'a>(name: Option<&'a Name>, found: Option<&'a Tree>) -> Option<&'a str>
    ensures { option_copied result ≡ spec.group_name (option_copied name.entry) (option_map (λ t. doc_of t.now) found.entry) }
{
    match name {
        None => sent_name(found),
        Some(name) => same_name(name.as_str(), found),
    }
}

fn sent_name(found: Option<&Tree>) -> Option<&str>
    ensures { option_copied result ≡ option_and_then forms.name_from (option_map (λ t. doc_of t.now) found.entry) }
{
    match found {
        None => None,
        Some(tree) => name_from(tree),
    }
}

fn name_from(tree: &Tree) -> Option<&str>
    ensures { option_copied result ≡ forms.name_from (doc_of tree.now) }
{
    match tree {
        Tree::Words(text) => name_in(text.as_str()),
        Tree::Null | Tree::Bool(_) | Tree::Whole(_) | Tree::List(_) | Tree::Dict(_) => None,
    }
}

fn name_in(text: &str) -> Option<&str>
    ensures { option_copied result ≡ cond (names.is_name text.now) (Some text.now) None }
{
    if is_name(text) { Some(text) } else { None }
}

fn same_name<'a>(name: &'a str, found: Option<&'a Tree>) -> Option<&'a str>
    ensures { option_copied result ≡ spec.group_name (Some name.now) (option_map (λ t. doc_of t.now) found.entry) }
{
    match found {
        None => Some(name),
        Some(tree) => this_name(name, tree),
    }
}

fn this_name<'a>(name: &'a str, tree: &Tree) -> Option<&'a str>
    ensures { option_copied result ≡ spec.group_name (Some name.now) (Some (doc_of tree.now)) }
{
    if is_exactly(name, tree) {
        Some(name)
    } else {
        None
    }
}

/// The members of a group, where they have their form: a new one has none.
fn group_actors(alloc: Global, body: &Fields, name: Option<&Name>) -> Result<Option<Tree>, NoMemory>
    ensures { IfOk result (λ found. option_map doc_of found ≡ spec.group_actors (option_copied name.entry) (pairs_of body.now)) }
{
    match name {
        None => Ok(Some(nobody(alloc)?)),
        Some(_) => sent_actors(alloc, body),
    }
}

fn sent_actors(alloc: Global, body: &Fields) -> Result<Option<Tree>, NoMemory>
    ensures { IfOk result (λ found. option_map doc_of found ≡ spec.sent_actors (pair_at (codes "actors") (pairs_of body.now))) }
{
    match body.get("actors") {
        None => Ok(Some(nobody(alloc)?)),
        Some(tree) => actors_from(alloc, tree),
    }
}

fn nobody(alloc: Global) -> Result<Tree, NoMemory>
    ensures { IfOk result (λ tree. doc_of tree ≡ spec.nobody) }
{
    actors_tree(
        alloc,
        &TextSet::new(alloc),
        &TextSet::new(alloc),
        &TextSet::new(alloc),
    )
}

fn actors_from(alloc: Global, tree: &Tree) -> Result<Option<Tree>, NoMemory>
    ensures { IfOk result (λ found. option_map doc_of found ≡ spec.actors_from (doc_of tree.now)) }
{
    match tree {
        Tree::Dict(body) => actors_of(alloc, body),
        Tree::Null | Tree::Bool(_) | Tree::Whole(_) | Tree::Words(_) | Tree::List(_) => Ok(None),
    }
}

fn actors_of(alloc: Global, body: &Fields) -> Result<Option<Tree>, NoMemory>
    ensures { IfOk result (λ found. option_map doc_of found ≡ spec.actors_of (pairs_of body.now)) }
{
    let Some(clients) = members_at(alloc, body, "clients")? else {
        return Ok(None);
    };
    let Some(groups) = members_at(alloc, body, "groups")? else {
        return Ok(None);
    };
    let Some(users) = members_at(alloc, body, "users")? else {
        return Ok(None);
    };
    Ok(Some(actors_tree(alloc, &clients, &groups, &users)?))
}

/// The members of a kind, in order, where they are a list of texts.
fn members_at(alloc: Global, body: &Fields, key: &str) -> Result<Option<TextSet>, NoMemory>
    ensures { IfOk result (λ found. found ≡ spec.members_from (pair_at key.now (pairs_of body.now))) }
{
    match body.get(key) {
        None => Ok(Some(TextSet::new(alloc))),
        Some(tree) => TextSet::read(alloc, tree),
    }
}

fn actors_tree(
    alloc: Global,
    clients: &TextSet,
    groups: &TextSet,
    users: &TextSet,
) -> Result<Tree, NoMemory>
    ensures { IfOk result (λ tree. doc_of tree ≡ spec.actors_doc clients.now groups.now users.now) }
{
    let mut fields = Fields::with_capacity(alloc, 3)?;
    put(alloc, &mut fields, "clients", clients.tree(alloc)?)?;
    put(alloc, &mut fields, "groups", groups.tree(alloc)?)?;
    put(alloc, &mut fields, "users", users.tree(alloc)?)?;
    Ok(Tree::Dict(fields))
}

fn group_with(alloc: Global, actors: Option<Tree>, name: &str) -> Result<Tree, FormFault>
    ensures { Gives result (spec.group_with (option_map doc_of actors) name.now) }
{
    match actors {
        Some(actors) => Ok(group_tree(alloc, actors, name)?),
        None => Err(bad_field(alloc, "actors")),
    }
}

fn group_tree(alloc: Global, actors: Tree, name: &str) -> Result<Tree, NoMemory>
    ensures { IfOk result (λ tree. doc_of tree ≡ spec.group_doc (doc_of actors) name.now) }
{
    let mut fields = Fields::with_capacity(alloc, 2)?;
    put(alloc, &mut fields, "actors", actors)?;
    put(
        alloc,
        &mut fields,
        "groupname",
        Tree::Words(Text::from_str(alloc, name)?),
    )?;
    Ok(Tree::Dict(fields))
}

fn put(alloc: Global, fields: &mut Fields, key: &str, tree: Tree) -> Result<(), NoMemory>
    ensures { OnOk result (fields.new ≡ with_pair key.now (doc_of tree) fields.old) }
{
    fields.put(Text::from_str(alloc, key)?, tree)
}
