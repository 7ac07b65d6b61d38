//! The body of an organisation's own row: how many sandboxes it has made.
ghost use Rattle.compact_json.specs.Compact.{IsCompact};
ghost use Rattle.doc_tree.specs.Doc.{whole};
ghost use Rattle.doc_tree.specs.Tree.{doc_of};
ghost use Rattle.org_rows.specs.Bodies.{count_body};
ghost use Rattle.org_rows.specs.Reading as spec;
ghost use Rattle.std.specs.Prelude.{◌≡◌, IfOk, IfSome};

use crate::bodies::{is_text_of, one_key, part_at, tree_in};
use doc_tree::{NoMemory, Number, Tree};
use std::alloc::Global;

/// The count that a body says.
pub(crate) fn read_count(alloc: Global, body: &[u8]) -> Result<Option<u64>, NoMemory>
    ensures { IfOk result (λ found. found ≡ spec.said count_body spec.count_in body.now) }
{
    match tree_in(alloc, body)? {
        Some(tree) => {
            let found = count_in(&tree);
            drop(tree);
            if_written(alloc, body, found)
        }
        None => Ok(None),
    }
}

fn count_in(tree: &Tree) -> Option<u64>
    ensures { result ≡ spec.count_in (doc_of tree.now) }
{
    match part_at(tree, "sandboxes") {
        Some(part) => number_in(part),
        None => None,
    }
}

fn number_in(tree: &Tree) -> Option<u64>
    ensures { result ≡ spec.number_in (doc_of tree.now) }
{
    match tree {
        Tree::Whole(number) => unsigned(number),
        Tree::Null | Tree::Bool(_) | Tree::Words(_) | Tree::List(_) | Tree::Dict(_) => None,
    }
}

fn unsigned(number: &Number) -> Option<u64>
    ensures { result ≡ spec.number_in (whole number.now) }
{
    let value = number.value();
    if value < 0 { None } else { Some(value as u64) }
}

/// The count that was found, where the body is what is written of it.
fn if_written(alloc: Global, body: &[u8], found: Option<u64>) -> Result<Option<u64>, NoMemory>
    ensures found { IfOk result (λ kept. kept ≡ spec.written_as count_body body.now found) }
    ensures compact { IfOk result (λ kept. IfSome kept (λ _. IsCompact body.now)) }
{
    let Some(count) = found else {
        return Ok(None);
    };
    let tree = one_key(alloc, "sandboxes", Tree::Whole(Number::from(count)))?;
    let same = is_text_of(alloc, body, &tree);
    drop(tree);
    Ok(same?.then_some(count))
}
