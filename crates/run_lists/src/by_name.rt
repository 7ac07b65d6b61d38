//! Run lists under names, and the documents that are such.
ghost use Rattle.std.specs.Prelude.{◌≡◌, IfOk, IfSome};
ghost use Rattle.doc_tree.specs.Name.{is_name};
ghost use Rattle.doc_tree.specs.Tree.{doc_of, pair_of};
ghost use Rattle.run_lists.specs.ByName as spec;
ghost use Rattle.run_lists.specs.Reading.{each_of};

use crate::items::Items;
use crate::reading::{Allowed, items_read};
use doc_tree::{Field, Fields, Listed, Name, NoMemory, Text, Tree};
use std::alloc::Global;

/// A run list under a name.
#[derive(Drop)]
pub struct NamedRunList {
    pub name: Name,
    pub run_list: Items,
}

/// Run lists under their names, in order: contracts see the list of them.
pub type NamedRunLists = Listed<NamedRunList>;

/// The run lists that a tree has under Names, which may hold these items: a Dict from Names to run lists. It is `None`
/// exactly where the tree is no Dict, a key of it no Name, or what stands there no such run list. They come in the byte
/// order of their names, each name once.
pub fn named_run_lists(
    alloc: Global,
    allowed: Allowed,
    tree: &Tree,
) -> Result<Option<NamedRunLists>, NoMemory>
    ensures lists { IfOk result (λ found. found ≡ spec.named_run_lists allowed (doc_of tree.now)) }
    ensures order { IfOk result (λ found. IfSome found spec.AreInOrder) }
{
    // The keys of each Dict are in order.
    tree.known();
    lists_in(alloc, allowed, tree)
}

#[tactic(auto, using(doc_tree::proofs::Docs::back))]
fn lists_in(alloc: Global, allowed: Allowed, tree: &Tree) -> Result<Option<NamedRunLists>, NoMemory>
    ensures { IfOk result (λ found. found ≡ spec.named_run_lists allowed (doc_of tree.now)) }
{
    match tree {
        Tree::Dict(fields) => lists_of(alloc, allowed, fields),
        Tree::Null | Tree::Bool(_) | Tree::Whole(_) | Tree::Words(_) | Tree::List(_) => Ok(None),
    }
}

fn lists_of(
    alloc: Global,
    allowed: Allowed,
    fields: &Fields,
) -> Result<Option<NamedRunLists>, NoMemory>
    ensures { IfOk result (λ found. found ≡ each_of (spec.named_run_list allowed) fields.now) }
{
    let mut lists = NamedRunLists::new(alloc);
    for field in fields.as_slice() {
        match named_run_list(alloc, allowed, field)? {
            None => return Ok(None),
            Some(list) => lists.push(list)?,
        }
    }
    Ok(Some(lists))
}

fn named_run_list(
    alloc: Global,
    allowed: Allowed,
    field: &Field,
) -> Result<Option<NamedRunList>, NoMemory>
    ensures { IfOk result (λ found. found ≡ spec.named_run_list allowed (pair_of field.now)) }
{
    let Some(name) = name_in(alloc, &field.key)? else {
        return Ok(None);
    };
    match items_read(alloc, allowed, &field.tree)? {
        Some(run_list) => Ok(Some(NamedRunList { name, run_list })),
        None => Ok(None),
    }
}

/// The Name that a text is.
pub(crate) fn name_in(alloc: Global, text: &Text) -> Result<Option<Name>, NoMemory>
    ensures { IfOk result (λ found. found ≡ spec.kept_if is_name text.now) }
{
    match Name::of(text.copy(alloc)?) {
        Ok(name) => Ok(Some(name)),
        Err(_) => Ok(None),
    }
}
