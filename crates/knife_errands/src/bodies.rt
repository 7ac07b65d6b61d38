//! What the bodies of replies say.

ghost use Rattle.std.specs.Prelude.{◌≡◌, ◌++◌, IfOk, OnOk, codes, option_and_then, option_copied, option_map};
ghost use Rattle.std.specs.Map.{keys_of};
ghost use Rattle.doc_tree.specs.Part.{part_at};
ghost use Rattle.doc_tree.specs.Tree.{doc_of, pair_of};
ghost use Rattle.run_lists.specs.Reading.{each_of};
ghost use Rattle.knife_errands.specs.Bodies as spec;

use crate::errands::Listing;
use doc_tree::{Fields, NoMemory, Number, ReadFault, Text, Texts, Tree, Trees, read_json};
use std::alloc::Global;

/// The document that a body is.
pub(crate) fn document_in(alloc: Global, body: &[u8]) -> Result<Option<Tree>, NoMemory>
    ensures { IfOk result (λ tree. option_map doc_of tree ≡ spec.document_in body.now) }
{
    match read_json(alloc, body) {
        Ok(tree) => Ok(Some(tree)),
        Err(ReadFault::NoMemory) => Err(NoMemory),
        Err(ReadFault::NotJson | ReadFault::TooDeep | ReadFault::NotWhole) => Ok(None),
    }
}

/// The part of a document at a key.
pub(crate) fn part_at<'a>(tree: &'a Tree, key: &str) -> Option<&'a Tree>
    ensures { option_map (λ t. doc_of t.now) result ≡ part_at key.now (doc_of tree.now) }
{
    match tree {
        Tree::Dict(fields) => fields.get(key),
        Tree::Null | Tree::Bool(_) | Tree::Whole(_) | Tree::Words(_) | Tree::List(_) => None,
    }
}

/// The text at a key of a document.
pub(crate) fn text_at<'a>(tree: &'a Tree, key: &str) -> Option<&'a Text>
    ensures { option_copied result ≡ spec.text_at key.now (doc_of tree.now) }
{
    match part_at(tree, key) {
        Some(part) => part.text(),
        None => None,
    }
}

/// The names that the body of a listing has.
pub(crate) fn names_in(
    alloc: Global,
    listing: &Listing,
    tree: &Tree,
) -> Result<Option<Texts>, NoMemory>
    ensures { IfOk result (λ names. names ≡ spec.names_in listing.now (doc_of tree.now)) }
{
    match listing {
        Listing::Of(_) | Listing::Bag(_) => keys_in(alloc, tree),
        Listing::Users => users_in(alloc, tree),
        Listing::Cookbooks => cookbooks_in(alloc, tree),
    }
}

#[tactic(auto, using(doc_tree::proofs::Docs::back))]
fn keys_in(alloc: Global, tree: &Tree) -> Result<Option<Texts>, NoMemory>
    ensures { IfOk result (λ names. names ≡ spec.keys_in (doc_of tree.now)) }
{
    match tree {
        Tree::Dict(fields) => Ok(Some(names_of(alloc, fields)?)),
        Tree::Null | Tree::Bool(_) | Tree::Whole(_) | Tree::Words(_) | Tree::List(_) => Ok(None),
    }
}

fn names_of(alloc: Global, fields: &Fields) -> Result<Texts, NoMemory>
    ensures { IfOk result (λ names. names ≡ keys_of fields.now) }
{
    let mut names = Texts::new(alloc);
    for field in fields.as_slice() {
        names.push(field.key.copy(alloc)?)?;
    }
    Ok(names)
}

#[tactic(auto, using(doc_tree::proofs::Docs::back))]
fn users_in(alloc: Global, tree: &Tree) -> Result<Option<Texts>, NoMemory>
    ensures { IfOk result (λ names. names ≡ spec.users_in (doc_of tree.now)) }
{
    match tree {
        Tree::List(trees) => users_of(alloc, trees),
        Tree::Null | Tree::Bool(_) | Tree::Whole(_) | Tree::Words(_) | Tree::Dict(_) => Ok(None),
    }
}

fn users_of(alloc: Global, trees: &Trees) -> Result<Option<Texts>, NoMemory>
    ensures { IfOk result (λ names. names ≡ each_of spec.user_in trees.now) }
{
    let mut names = Texts::new(alloc);
    for tree in trees.as_slice() {
        match user_in(tree) {
            None => return Ok(None),
            Some(name) => names.push(name.copy(alloc)?)?,
        }
    }
    Ok(Some(names))
}

fn user_in(tree: &Tree) -> Option<&Text>
    ensures { option_copied result ≡ spec.user_in (doc_of tree.now) }
{
    match part_at(tree, "user") {
        Some(user) => text_at(user, "username"),
        None => None,
    }
}

/// The text at a key of each document of a list.
#[tactic(auto, using(doc_tree::proofs::Docs::back))]
pub(crate) fn texts_at(alloc: Global, key: &str, tree: &Tree) -> Result<Option<Texts>, NoMemory>
    ensures { IfOk result (λ texts. texts ≡ spec.texts_at key.now (doc_of tree.now)) }
{
    match tree {
        Tree::List(trees) => each_text(alloc, key, trees),
        Tree::Null | Tree::Bool(_) | Tree::Whole(_) | Tree::Words(_) | Tree::Dict(_) => Ok(None),
    }
}

fn each_text(alloc: Global, key: &str, trees: &Trees) -> Result<Option<Texts>, NoMemory>
    ensures { IfOk result (λ texts. texts ≡ each_of (spec.text_at key.now) trees.now) }
{
    let mut texts = Texts::new(alloc);
    for tree in trees.as_slice() {
        match text_at(tree, key) {
            None => return Ok(None),
            Some(text) => texts.push(text.copy(alloc)?)?,
        }
    }
    Ok(Some(texts))
}

#[tactic(auto, using(doc_tree::proofs::Docs::back))]
fn cookbooks_in(alloc: Global, tree: &Tree) -> Result<Option<Texts>, NoMemory>
    ensures { IfOk result (λ names. names ≡ spec.cookbooks_in (doc_of tree.now)) }
{
    match tree {
        Tree::Dict(fields) => cookbooks_of(alloc, fields),
        Tree::Null | Tree::Bool(_) | Tree::Whole(_) | Tree::Words(_) | Tree::List(_) => Ok(None),
    }
}

fn cookbooks_of(alloc: Global, fields: &Fields) -> Result<Option<Texts>, NoMemory>
    ensures { IfOk result (λ names. names ≡ spec.cookbooks_of fields.now) }
{
    let mut names = Texts::new(alloc);
    for field in fields.as_slice() {
        match versions_at(alloc, &field.tree)? {
            None => return Ok(None),
            Some(versions) => add_versions(alloc, &mut names, &field.key, &versions)?,
        }
    }
    Ok(Some(names))
}

fn versions_at(alloc: Global, tree: &Tree) -> Result<Option<Texts>, NoMemory>
    ensures { IfOk result (λ texts. texts ≡ spec.versions_at (doc_of tree.now)) }
{
    match part_at(tree, "versions") {
        Some(versions) => texts_at(alloc, "version", versions),
        None => Ok(None),
    }
}

fn add_versions(
    alloc: Global,
    names: &mut Texts,
    cookbook: &Text,
    versions: &Texts,
) -> Result<(), NoMemory>
    ensures { OnOk result (names.new ≡ names.old ++ spec.of_cookbook cookbook.now versions.now) }
{
    for version in versions.as_slice() {
        names.push(of_version(alloc, cookbook, version)?)?;
    }
    Ok(())
}

fn of_version(alloc: Global, cookbook: &Text, version: &Text) -> Result<Text, NoMemory>
    ensures { IfOk result (λ text. text ≡ spec.of_version cookbook.now version.now) }
{
    Ok(Text::of(format!(in alloc; "{cookbook} {version}")?))
}

/// How many a search found.
pub(crate) fn total_in(tree: &Tree) -> Option<u64>
    ensures { result ≡ spec.total_in (doc_of tree.now) }
{
    match part_at(tree, "total") {
        Some(total) => count_of(total),
        None => None,
    }
}

fn count_of(tree: &Tree) -> Option<u64>
    ensures { result ≡ spec.count_of (doc_of tree.now) }
{
    match tree {
        Tree::Whole(number) => natural(*number),
        Tree::Null | Tree::Bool(_) | Tree::Words(_) | Tree::List(_) | Tree::Dict(_) => None,
    }
}

fn natural(number: Number) -> Option<u64>
    ensures { result ≡ spec.natural number }
{
    let value = number.value();
    if 0 <= value { Some(value as u64) } else { None }
}

/// The names in the rows of a search of this index.
pub(crate) fn rows_in(alloc: Global, index: &str, tree: &Tree) -> Result<Option<Texts>, NoMemory>
    ensures { IfOk result (λ names. names ≡ spec.rows_in index.now (doc_of tree.now)) }
{
    match part_at(tree, "rows") {
        Some(rows) => texts_at(alloc, name_key(index), rows),
        None => Ok(None),
    }
}

fn name_key(index: &str) -> &'static str
    ensures { result.now ≡ spec.name_key index.now }
{
    match index {
        "node" | "role" | "environment" | "client" => "name",
        _ => "id",
    }
}
