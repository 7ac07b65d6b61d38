//! The bodies of objects, which are what is stored of them.
ghost use Rattle.doc_tree.specs.Tree.{doc_of};
ghost use Rattle.doc_tree.specs.Written.{text};
ghost use Rattle.doc_tree.specs.declared.kind.Kind.TheVariants as kinds;
ghost use Rattle.object_forms.specs.Forms as forms;
ghost use Rattle.object_forms.specs.Objects.{name_in, object_from};
ghost use Rattle.object_store.specs.Keys.{is_of};
ghost use Rattle.org_core.specs.ObjectConditions.{IsStored};
ghost use Rattle.org_rows.specs.Places as places;
ghost use Rattle.org_rows.specs.Reading as spec;
ghost use Rattle.row_reading.specs.Bodies.{IsTextOf};
ghost use Rattle.std.specs.Prelude.{◌≡◌, IfOk, IfSome, None, Some, bytes_eq, cond, false, option_and_then, option_copied, option_map};

use crate::bodies::{part_at, tree_in};
use crate::names::{name_of, split_at_slash};
use compact_json::CompactJson;
use doc_tree::{Kind, NoMemory, Text, Tree, is_name};
use object_forms::{FormFault, read_object};
use object_store::Key;
use std::alloc::Global;

/// The object of this key that a body is, where it is what is stored of itself.
pub(crate) fn read_kept(
    alloc: Global,
    body: &[u8],
    key: &Key,
) -> Result<Option<CompactJson>, NoMemory>
    requires { places.IsPlace (places.object key.now) }
    ensures found { IfOk result (λ found. found ≡ spec.stored_in (spec.object_stored key.now.kind key.now.name) body.now) }
    ensures stored { IfOk result (λ found. IfSome found (IsStored key.now.kind key.now.name)) }
{
    match tree_in(alloc, body)? {
        Some(tree) => {
            let kept = kept_of(alloc, key, tree);
            if_text(alloc, body, kept?)
        }
        None => Ok(None),
    }
}

/// What is stored of the object that a tree gives under this key, if it gives one.
fn kept_of(alloc: Global, key: &Key, tree: Tree) -> Result<Option<Tree>, NoMemory>
    requires { places.IsPlace (places.object key.now) }
    ensures { IfOk result (λ kept. option_map doc_of kept ≡ spec.object_stored key.now.kind key.now.name (doc_of tree)) }
{
    if key.is_of(Kind::Item) {
        Ok(kept_item(key.name.as_str(), tree))
    } else {
        let kept = kept_named(alloc, key, &tree);
        drop(tree);
        kept
    }
}

fn kept_item(name: &str, tree: Tree) -> Option<Tree>
    ensures { option_map doc_of result ≡ spec.item_of name.now (doc_of tree) }
{
    if is_item_of(name, &tree) {
        Some(tree)
    } else {
        drop(tree);
        None
    }
}

/// Whether the item has the id that its name ends with.
fn is_item_of(name: &str, tree: &Tree) -> bool
    ensures { cond result (Some (doc_of tree.now)) None ≡ spec.item_of name.now (doc_of tree.now) }
{
    match split_at_slash(name) {
        Some((_, id)) => has_id(id, tree),
        None => false,
    }
}

fn has_id(id: &str, tree: &Tree) -> bool
    ensures { cond result (Some (doc_of tree.now)) None ≡ option_and_then (λ found. cond (bytes_eq found id.now) (Some (doc_of tree.now)) None) (name_in kinds.Item (doc_of tree.now)) }
{
    match id_in(tree) {
        Some(found) => found.as_str() == id,
        None => false,
    }
}

fn id_in(tree: &Tree) -> Option<&Text>
    ensures { option_copied result ≡ name_in kinds.Item (doc_of tree.now) }
{
    match part_at(tree, "id") {
        Some(part) => name_from(part),
        None => None,
    }
}

/// The Name that a tree is, if it is one.
fn name_from(tree: &Tree) -> Option<&Text>
    ensures { option_copied result ≡ forms.name_from (doc_of tree.now) }
{
    match tree {
        Tree::Words(text) => {
            if is_name(text.as_str()) {
                Some(text)
            } else {
                None
            }
        }
        Tree::Null | Tree::Bool(_) | Tree::Whole(_) | Tree::List(_) | Tree::Dict(_) => None,
    }
}

/// What is stored of an object that isn't an item.
fn kept_named(alloc: Global, key: &Key, tree: &Tree) -> Result<Option<Tree>, NoMemory>
    requires place { places.IsPlace (places.object key.now) }
    requires other { is_of kinds.Item key.now ≡ false }
    ensures { IfOk result (λ kept. option_map doc_of kept ≡ spec.given (object_from key.now.kind (Some key.now.name) (doc_of tree.now))) }
{
    let Some(name) = name_of(alloc, key.name.as_str())? else {
        unreachable!()
    };
    match read_object(alloc, key.kind, tree, Some(&name)) {
        Ok(kept) => Ok(Some(kept)),
        Err(FormFault::BadField(_)) => Ok(None),
        Err(FormFault::NoMemory) => Err(NoMemory),
    }
}

/// The compact text of what is stored, where the body is that text.
fn if_text(alloc: Global, body: &[u8], kept: Option<Tree>) -> Result<Option<CompactJson>, NoMemory>
    ensures found { IfOk result (λ found. found ≡ spec.written_as text body.now (option_map doc_of kept)) }
    ensures compact { IfOk result (λ found. IfSome found (λ doc. IsTextOf doc body.now)) }
{
    match kept {
        Some(tree) => {
            let written = CompactJson::of(alloc, &tree);
            drop(tree);
            Ok(if_same(body, written?))
        }
        None => Ok(None),
    }
}

fn if_same(body: &[u8], written: CompactJson) -> Option<CompactJson>
    ensures found { result ≡ spec.written_as text body.now (Some written) }
    ensures compact { IfSome result (λ doc. IsTextOf doc body.now) }
{
    // What every document keeps makes its text one that spells it.
    written.known();
    if written.as_bytes() == body {
        Some(written)
    } else {
        None
    }
}
