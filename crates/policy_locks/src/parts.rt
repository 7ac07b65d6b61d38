//! The parts of a lock's body.
ghost use Rattle.std.specs.Prelude.{◌≡◌, IfOk, option_copied, option_map};
ghost use Rattle.doc_tree.specs.Doc.{words};
ghost use Rattle.doc_tree.specs.Name as names;
ghost use Rattle.doc_tree.specs.Tree.{doc_of, pair_of};
ghost use Rattle.policy_locks.specs.Parts as spec;

use crate::lock::{CookbookLock, CookbookLocks};
use cookbook_meta::is_identifier;
use doc_tree::{Field, Fields, Name, NoMemory, Text, Tree};
use std::alloc::Global;
use version_rules::{Constraint, Need, Needs, Version, read_constraint, read_version};

/// The Name that a tree is.
pub(crate) fn name_of(alloc: Global, tree: &Tree) -> Result<Option<Name>, NoMemory>
    ensures { IfOk result (λ found. found ≡ spec.name_of (doc_of tree.now)) }
{
    match tree.text() {
        Some(text) => name_in(alloc, text),
        None => Ok(None),
    }
}

fn name_in(alloc: Global, text: &Text) -> Result<Option<Name>, NoMemory>
    ensures { IfOk result (λ found. found ≡ spec.kept_if names.is_name text.now) }
{
    match Name::of(text.copy(alloc)?) {
        Ok(name) => Ok(Some(name)),
        Err(_) => Ok(None),
    }
}

fn version_of(tree: &Tree) -> Option<Version>
    ensures { result ≡ spec.version_of (doc_of tree.now) }
{
    match tree.text() {
        Some(text) => version_in(text),
        None => None,
    }
}

fn version_in(text: &Text) -> Option<Version>
    ensures { result ≡ spec.version_of (words text.now) }
{
    match read_version(text) {
        Ok(version) => Some(version),
        Err(_) => None,
    }
}

fn identifier_of(tree: &Tree) -> Option<&Text>
    ensures { option_copied result ≡ spec.identifier_of (doc_of tree.now) }
{
    match tree.text() {
        Some(text) => identifier_in(text),
        None => None,
    }
}

fn identifier_in(text: &Text) -> Option<&Text>
    ensures { option_copied result ≡ spec.identifier_of (words text.now) }
{
    if is_identifier(text.as_str()) {
        Some(text)
    } else {
        None
    }
}

fn constraint_of(tree: &Tree) -> Option<Constraint>
    ensures { result ≡ spec.constraint_of (doc_of tree.now) }
{
    match tree.text() {
        Some(text) => constraint_in(text),
        None => None,
    }
}

fn constraint_in(text: &Text) -> Option<Constraint>
    ensures { result ≡ spec.constraint_of (words text.now) }
{
    match read_constraint(text) {
        Ok(constraint) => Some(constraint),
        Err(_) => None,
    }
}

/// The fields of the Dict that a tree is.
#[tactic(auto, using(doc_tree::proofs::Docs::back))]
fn dict_of(tree: &Tree) -> Option<&Fields>
    ensures { option_copied result ≡ spec.dict_of (doc_of tree.now) }
{
    match tree {
        Tree::Dict(fields) => Some(fields),
        Tree::Null | Tree::Bool(_) | Tree::Whole(_) | Tree::Words(_) | Tree::List(_) => None,
    }
}

/// Fields of their own, those of the Dict that a tree is.
pub(crate) fn fields_of(alloc: Global, tree: &Tree) -> Result<Option<Fields>, NoMemory>
    ensures { IfOk result (λ found. found ≡ spec.dict_of (doc_of tree.now)) }
{
    match dict_of(tree) {
        Some(fields) => Ok(Some(fields.copy(alloc)?)),
        None => Ok(None),
    }
}

/// The locked cookbooks that a tree is.
pub(crate) fn cookbook_locks(alloc: Global, tree: &Tree) -> Result<Option<CookbookLocks>, NoMemory>
    ensures { IfOk result (λ found. found ≡ spec.cookbook_locks (doc_of tree.now)) }
{
    match dict_of(tree) {
        Some(fields) => locks_of(alloc, fields),
        None => Ok(None),
    }
}

fn locks_of(alloc: Global, fields: &Fields) -> Result<Option<CookbookLocks>, NoMemory>
    ensures { IfOk result (λ found. found ≡ spec.each_of spec.cookbook_lock fields.now) }
{
    let mut locks = CookbookLocks::new(alloc);
    for field in fields.as_slice() {
        match cookbook_lock(alloc, field)? {
            None => return Ok(None),
            Some(lock) => locks.push(lock)?,
        }
    }
    Ok(Some(locks))
}

fn cookbook_lock(alloc: Global, field: &Field) -> Result<Option<CookbookLock>, NoMemory>
    ensures { IfOk result (λ found. found ≡ spec.cookbook_lock (pair_of field.now)) }
{
    let Some(name) = name_in(alloc, &field.key)? else {
        return Ok(None);
    };
    match dict_of(&field.tree) {
        Some(fields) => locked_at(alloc, name, fields),
        None => Ok(None),
    }
}

ghost use Rattle.doc_tree.specs.Doc.{pairs_of};

fn locked_at(alloc: Global, name: Name, fields: &Fields) -> Result<Option<CookbookLock>, NoMemory>
    ensures { IfOk result (λ found. found ≡ spec.locked_at name (pairs_of fields.now)) }
{
    let Some(version) = version_at(fields) else {
        return Ok(None);
    };
    match identifier_at(fields) {
        Some(identifier) => Ok(Some(CookbookLock {
            name,
            version,
            identifier: identifier.copy(alloc)?,
        })),
        None => Ok(None),
    }
}

ghost use Rattle.std.specs.Prelude.{codes, option_and_then};
ghost use Rattle.doc_tree.specs.Part.{pair_at};

fn version_at(fields: &Fields) -> Option<Version>
    ensures { result ≡ option_and_then spec.version_of (pair_at (codes "version") (pairs_of fields.now)) }
{
    match fields.get("version") {
        Some(tree) => version_of(tree),
        None => None,
    }
}

fn identifier_at(fields: &Fields) -> Option<&Text>
    ensures { option_copied result ≡ option_and_then spec.identifier_of (pair_at (codes "identifier") (pairs_of fields.now)) }
{
    match fields.get("identifier") {
        Some(tree) => identifier_of(tree),
        None => None,
    }
}

/// The constraints by cookbooks that a tree is.
pub(crate) fn needs_of(alloc: Global, tree: &Tree) -> Result<Option<Needs>, NoMemory>
    ensures { IfOk result (λ found. found ≡ spec.needs_of (doc_of tree.now)) }
{
    match dict_of(tree) {
        Some(fields) => needs_in(alloc, fields),
        None => Ok(None),
    }
}

fn needs_in(alloc: Global, fields: &Fields) -> Result<Option<Needs>, NoMemory>
    ensures { IfOk result (λ found. found ≡ spec.each_of spec.need_of fields.now) }
{
    let mut needs = Needs::new(alloc);
    for field in fields.as_slice() {
        match need_of(alloc, field)? {
            None => return Ok(None),
            Some(need) => needs.push(need)?,
        }
    }
    Ok(Some(needs))
}

fn need_of(alloc: Global, field: &Field) -> Result<Option<Need>, NoMemory>
    ensures { IfOk result (λ found. found ≡ spec.need_of (pair_of field.now)) }
{
    let Some(name) = name_in(alloc, &field.key)? else {
        return Ok(None);
    };
    match constraint_of(&field.tree) {
        Some(constraint) => Ok(Some(Need { name, constraint })),
        None => Ok(None),
    }
}
