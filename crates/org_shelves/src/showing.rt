//! A stored manifest as a reply shows it.
ghost use Rattle.std.specs.Prelude.{◌≡◌, ◌++◌, IfOk, codes, map, option_map};
ghost use Rattle.doc_tree.specs.Doc.{dict, pairs_of, words};
ghost use Rattle.doc_tree.specs.Part.{with_pair};
ghost use Rattle.doc_tree.specs.Tree.{doc_of, pair_of};
ghost use Rattle.org_shelves.specs.Editions.{sum_in, text_in};
ghost use Rattle.org_shelves.specs.Showing as spec;

use crate::editions::Edition;
use crate::segments::is_segment;
use doc_tree::{Field, Fields, NoMemory, Text, Tree, Trees};
use std::alloc::Global;

/// The stored object with the place of its file as `url` in each entry of the nine segments: `front`, as
/// `/organizations/ORG/files/`, followed by the entry's checksum. All else is as stored.
pub fn shown(alloc: Global, front: &str, edition: &Edition) -> Result<Tree, NoMemory>
    ensures { IfOk result (λ tree. doc_of tree ≡ spec.shown_doc front.now edition.now) }
{
    shown_tree(alloc, front, edition.tree())
}

#[tactic(auto, using(doc_tree::proofs::Docs::back))]
fn shown_tree(alloc: Global, front: &str, tree: &Tree) -> Result<Tree, NoMemory>
    ensures { IfOk result (λ made. doc_of made ≡ spec.shown_doc front.now (doc_of tree.now)) }
{
    match tree {
        Tree::Dict(fields) => Ok(Tree::Dict(shown_fields(alloc, front, fields)?)),
        Tree::Null | Tree::Bool(_) | Tree::Whole(_) | Tree::Words(_) | Tree::List(_) => {
            tree.copy(alloc)
        }
    }
}

fn shown_fields(alloc: Global, front: &str, fields: &Fields) -> Result<Fields, NoMemory>
    ensures { IfOk result (λ made. made ≡ map (spec.shown_pair front.now) fields.now) }
{
    let mut made = Fields::with_capacity(alloc, fields.len())?;
    for field in fields.as_slice() {
        let tree = shown_part(alloc, front, field)?;
        made.push(field.key.copy(alloc)?, tree)?;
    }
    Ok(made)
}

/// What a field shows: a segment with its entries shown, and all else as stored.
fn shown_part(alloc: Global, front: &str, field: &Field) -> Result<Tree, NoMemory>
    ensures { IfOk result (λ made. (field.now.key, doc_of made) ≡ spec.shown_pair front.now (pair_of field.now)) }
{
    if is_segment(field.key.as_str()) {
        shown_segment(alloc, front, &field.tree)
    } else {
        field.tree.copy(alloc)
    }
}

#[tactic(auto, using(doc_tree::proofs::Docs::back))]
fn shown_segment(alloc: Global, front: &str, tree: &Tree) -> Result<Tree, NoMemory>
    ensures { IfOk result (λ made. doc_of made ≡ spec.shown_segment front.now (doc_of tree.now)) }
{
    match tree {
        Tree::List(trees) => Ok(Tree::List(shown_entries(alloc, front, trees)?)),
        Tree::Null | Tree::Bool(_) | Tree::Whole(_) | Tree::Words(_) | Tree::Dict(_) => {
            tree.copy(alloc)
        }
    }
}

fn shown_entries(alloc: Global, front: &str, trees: &Trees) -> Result<Trees, NoMemory>
    ensures { IfOk result (λ made. made ≡ map (spec.shown_entry front.now) trees.now) }
{
    let mut made = Trees::with_capacity(alloc, trees.len())?;
    for tree in trees.as_slice() {
        made.push(shown_entry(alloc, front, tree)?)?;
    }
    Ok(made)
}

#[tactic(auto, using(doc_tree::proofs::Docs::back))]
fn shown_entry(alloc: Global, front: &str, tree: &Tree) -> Result<Tree, NoMemory>
    ensures { IfOk result (λ made. doc_of made ≡ spec.shown_entry front.now (doc_of tree.now)) }
{
    match tree {
        Tree::Dict(fields) => Ok(Tree::Dict(with_url(alloc, front, fields)?)),
        Tree::Null | Tree::Bool(_) | Tree::Whole(_) | Tree::Words(_) | Tree::List(_) => {
            tree.copy(alloc)
        }
    }
}

/// The fields of an entry and the place of its file.
fn with_url(alloc: Global, front: &str, fields: &Fields) -> Result<Fields, NoMemory>
    ensures { IfOk result (λ made. made ≡ with_pair (codes "url") (words (front.now ++ sum_in (dict (pairs_of fields.now)))) fields.now) }
{
    let url = place_of(alloc, front, sum_in(fields))?;
    let mut made = fields.copy(alloc)?;
    made.put(Text::from_str(alloc, "url")?, Tree::Words(url))?;
    Ok(made)
}

/// The place of the file of a checksum.
fn place_of(alloc: Global, front: &str, sum: &str) -> Result<Text, NoMemory>
    ensures { IfOk result (λ text. text ≡ front.now ++ sum.now) }
{
    Ok(Text::of(format!(in alloc; "{front}{sum}")?))
}

/// The checksum that an entry of these fields names its file by.
fn sum_in(fields: &Fields) -> &str
    ensures { result.now ≡ sum_in (dict (pairs_of fields.now)) }
{
    text_in(fields.get("checksum"))
}

fn text_in(found: Option<&Tree>) -> &str
    ensures { result.now ≡ text_in (option_map (λ t. doc_of t.now) found.entry) }
{
    match found {
        Some(Tree::Words(text)) => text.as_str(),
        _ => "",
    }
}
