//! The bodies of sandboxes.
ghost use Rattle.compact_json.specs.Compact.{IsCompact};
ghost use Rattle.doc_tree.specs.Tree.{doc_of};
ghost use Rattle.membership.specs.TextTrees.{texts_doc};
ghost use Rattle.org_rows.specs.Bodies.{sandbox_body};
ghost use Rattle.org_rows.specs.Reading as spec;
ghost use Rattle.sandboxes.specs.Checksums.{is_checksum};
ghost use Rattle.std.specs.List.{list_all};
ghost use Rattle.std.specs.Prelude.{◌≡◌, IfOk, IfSome, IsTrue, None, Some, bytes_eq, cond};

use crate::bodies::{is_text_of, one_key, tree_in};
use crate::group::texts_at;
use doc_tree::{NoMemory, Text, Tree, Trees};
use membership::TextSet;
use sandboxes::{Sums, read_checksum};
use std::alloc::Global;

/// The checksums of a sandbox that a body says.
pub(crate) fn read_sums(alloc: Global, body: &[u8]) -> Result<Option<Sums>, NoMemory>
    ensures { IfOk result (λ found. found ≡ spec.said sandbox_body spec.sums_in body.now) }
{
    match tree_in(alloc, body)? {
        Some(tree) => {
            let found = sums_in(alloc, &tree);
            drop(tree);
            if_written(alloc, body, found?)
        }
        None => Ok(None),
    }
}

fn sums_in(alloc: Global, tree: &Tree) -> Result<Option<Sums>, NoMemory>
    ensures { IfOk result (λ found. found ≡ spec.sums_in (doc_of tree.now)) }
{
    match texts_at(alloc, tree, "checksums")? {
        Some(texts) => {
            let sums = sums_of(alloc, &texts);
            drop(texts);
            sums
        }
        None => Ok(None),
    }
}

/// The checksums that texts in order are, if each is one.
fn sums_of(alloc: Global, texts: &TextSet) -> Result<Option<Sums>, NoMemory>
    ensures { IfOk result (λ found. found ≡ cond (list_all is_checksum texts.now) (Some texts.now) None) }
{
    let mut sums = Vec::with_capacity(alloc, texts.as_slice().len())?;
    for text in texts.as_slice() {
        match read_checksum(text) {
            Some(sum) => sums.push(sum)?,
            None => return Ok(None),
        }
    }
    Ok(Some(Sums::in_order(sums)))
}

/// The checksums that were found, where the body is what is written of them.
fn if_written(alloc: Global, body: &[u8], found: Option<Sums>) -> Result<Option<Sums>, NoMemory>
    ensures found { IfOk result (λ kept. kept ≡ spec.written_as sandbox_body body.now found) }
    ensures compact { IfOk result (λ kept. IfSome kept (λ _. IsCompact body.now)) }
{
    match found {
        Some(sums) => {
            let same = is_written(alloc, body, &sums);
            Ok(same?.then_some(sums))
        }
        None => Ok(None),
    }
}

fn is_written(alloc: Global, body: &[u8], sums: &Sums) -> Result<bool, NoMemory>
    ensures same { IfOk result (λ same. same ≡ bytes_eq (sandbox_body sums.now) body.now) }
    ensures compact { IfOk result (λ same. IsTrue same → IsCompact body.now) }
{
    let tree = one_key(alloc, "checksums", sums_tree(alloc, sums)?)?;
    let same = is_text_of(alloc, body, &tree);
    drop(tree);
    same
}

/// The list of checksums.
fn sums_tree(alloc: Global, sums: &Sums) -> Result<Tree, NoMemory>
    ensures { IfOk result (λ tree. doc_of tree ≡ texts_doc sums.now) }
{
    let mut trees = Trees::with_capacity(alloc, sums.as_slice().len())?;
    for sum in sums.as_slice() {
        trees.push(Tree::Words(Text::from_str(alloc, sum.as_str())?))?;
    }
    Ok(Tree::List(trees))
}
