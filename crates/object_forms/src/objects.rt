//! Objects, as they are stored.
ghost use Rattle.std.specs.Prelude.{◌≡◌, IfOk, IfSome, IsTrue, option_copied, option_map};
ghost use Rattle.doc_tree.specs.Doc.{pairs_of};
ghost use Rattle.doc_tree.specs.Name as names;
ghost use Rattle.doc_tree.specs.Tree.{doc_of};
ghost use Rattle.object_forms.specs.Forms as forms;
ghost use Rattle.object_forms.specs.Kinds as kinds;
ghost use Rattle.object_forms.specs.Objects as spec;
ghost use Rattle.object_forms.specs.Outcomes.{Gives};
ghost use Rattle.object_forms.specs.Rows.{form_of, row_of};

use crate::fault::{FormFault, bad_field};
use crate::fields::{count_stored, fields_from, put_field};
use crate::forms::{is_dict, is_exactly};
use crate::group_bodies::read_group;
use crate::rows::{Absent, Form, Row};
use crate::tables::table_of;
use doc_tree::{Fields, Kind, Name, NoMemory, Tree};
use std::alloc::Global;

/// The object that a body gives, as it is stored: each field of its kind's table, in the order of the keys' bytes.
///
/// Under a path's name the body's name, or an item's id, may be missing and else equals it; without one it must be
/// there. A field that is missing has its default. Keys that the table doesn't list are dropped, but those of an item
/// are kept. An item may come as the `raw_data` of a `Chef::DataBagItem`.
///
/// A group is named by `groupname`, or else by `name`. Without a path's name it is a new one, which has no members
/// whatever is sent; under one, `actors` may be a Dict whose `users`, `clients` and `groups` are lists of texts, each
/// empty where it is missing. They are stored in the order of their bytes, each once.
///
/// It is `BadField` exactly where a field hasn't its form, with the first in the order of the table. A body that is no
/// Dict, and an item under the path's name `_acl`, fail as the name or id does.
pub fn read_object(
    alloc: Global,
    kind: Kind,
    tree: &Tree,
    name: Option<&Name>,
) -> Result<Tree, FormFault>
    requires { kinds.IsFormed kind }
    ensures object { Gives result (spec.object_from kind (option_copied name.entry) (doc_of tree.now)) }
    ensures named { IfOk result (λ t. spec.HasName kind (option_copied name.entry) (doc_of t)) }
{
    let no_id = is_no_id(kind, name);
    if is_group(kind) {
        return read_group(alloc, tree, name);
    }
    if no_id {
        return Err(bad_field(alloc, key_of(kind)));
    }
    match body_of(kind, tree) {
        Tree::Dict(body) => object_in(alloc, kind, name, body),
        Tree::Null | Tree::Bool(_) | Tree::Whole(_) | Tree::Words(_) | Tree::List(_) => {
            Err(bad_field(alloc, key_of(kind)))
        }
    }
}

/// The object that a Dict gives.
fn object_in(
    alloc: Global,
    kind: Kind,
    name: Option<&Name>,
    body: &Fields,
) -> Result<Tree, FormFault>
    ensures object { Gives result (spec.object_in kind (option_copied name.entry) (pairs_of body.now)) }
{
    let mut made = beside(alloc, kind, body)?;
    put_field(alloc, &mut made, &name_row(kind, name), body)?;
    let made = fields_from(alloc, made, table_of(kind), body)?;
    Ok(Tree::Dict(without_room(alloc, kind, body, made)?))
}

fn is_item(kind: Kind) -> bool
    ensures { result ≡ kinds.is_item kind }
{
    matches!(kind, Kind::Item)
}

fn is_group(kind: Kind) -> bool
    ensures { result ≡ kinds.is_group kind }
{
    matches!(kind, Kind::Group)
}

/// The key of the field that names an object.
fn key_of(kind: Kind) -> &'static str
    ensures { result.now ≡ spec.key_of kind }
{
    if is_item(kind) {
        "id"
    } else if is_group(kind) {
        "groupname"
    } else {
        "name"
    }
}

/// The field that names an object.
fn name_row<'a>(kind: Kind, name: Option<&'a Name>) -> Row<'a>
    ensures { row_of result ≡ spec.name_row kind (option_copied name.entry) }
{
    match name {
        None => Row {
            name: key_of(kind),
            form: name_form(kind),
            absent: Absent::Fault,
        },
        Some(name) => Row {
            name: key_of(kind),
            form: Form::Exactly(name.as_str()),
            absent: Absent::Words(name.as_str()),
        },
    }
}

fn name_form(kind: Kind) -> Form<'static>
    ensures { form_of result ≡ spec.name_form kind }
{
    if is_item(kind) { Form::Id } else { Form::Name }
}

/// Whether the path names what can't be an item.
fn is_no_id(kind: Kind, name: Option<&Name>) -> bool
    ensures test { result ≡ spec.is_no_id kind (option_copied name.entry) }
    ensures known { IfSome (option_copied name.entry) (λ n. IsTrue (names.is_name n)) }
{
    match name {
        None => false,
        Some(name) => name.as_str() == "_acl" && is_item(kind),
    }
}

/// What an object has beside its fields, with room for just these.
#[tactic(auto, using(doc_tree::proofs::Docs::back))]
fn beside(alloc: Global, kind: Kind, body: &Fields) -> Result<Fields, NoMemory>
    ensures { IfOk result (λ made. made ≡ spec.beside kind (pairs_of body.now)) }
{
    if is_item(kind) {
        body.copy(alloc)
    } else {
        Fields::with_capacity(alloc, 1 + count_stored(table_of(kind), body))
    }
}

/// What was made, with no spare room: only an item whose body has no id took more room for it.
fn without_room(alloc: Global, kind: Kind, body: &Fields, made: Fields) -> Result<Fields, NoMemory>
    ensures { IfOk result (λ kept. kept ≡ made) }
{
    if is_item(kind) && body.get("id").is_none() {
        made.copy(alloc)
    } else {
        Ok(made)
    }
}

/// What a body stands for.
fn body_of<'a>(kind: Kind, tree: &'a Tree) -> &'a Tree
    ensures { doc_of result.now ≡ spec.body_of kind (doc_of tree.now) }
{
    if is_item(kind) { item_in(tree) } else { tree }
}

fn item_in(tree: &Tree) -> &Tree
    ensures { doc_of result.now ≡ spec.item_in (doc_of tree.now) }
{
    match tree {
        Tree::Dict(body) => raw_data(body).unwrap_or(tree),
        Tree::Null | Tree::Bool(_) | Tree::Whole(_) | Tree::Words(_) | Tree::List(_) => tree,
    }
}

fn raw_data(body: &Fields) -> Option<&Tree>
    ensures { option_map (λ t. doc_of t.now) result ≡ spec.raw_data (pairs_of body.now) }
{
    if is_wrapped(body) {
        dict_at("raw_data", body)
    } else {
        None
    }
}

fn is_wrapped(body: &Fields) -> bool
    ensures { result ≡ spec.is_wrapped (pairs_of body.now) }
{
    match body.get("json_class") {
        None => false,
        Some(tree) => is_exactly("Chef::DataBagItem", tree),
    }
}

fn dict_at<'a>(key: &str, body: &'a Fields) -> Option<&'a Tree>
    ensures { option_map (λ t. doc_of t.now) result ≡ spec.formed_at key.now forms.a_dict (pairs_of body.now) }
{
    match body.get(key) {
        None => None,
        Some(tree) => as_dict(tree),
    }
}

fn as_dict(tree: &Tree) -> Option<&Tree>
    ensures { option_map (λ t. doc_of t.now) result ≡ forms.stored forms.a_dict (doc_of tree.now) }
{
    if is_dict(tree) { Some(tree) } else { None }
}
