//! The entries of a sources file, one by one, without memory but for the layer that is made.
ghost use Rattle.std.specs.Prelude.{◌≡◌, IfOk, codes, option_and_then, option_map, option_copied, Some};
ghost use Rattle.doc_tree.specs.Text.{text_of};
ghost use Rattle.doc_tree.specs.Part.{part_at};
ghost use Rattle.doc_tree.specs.Tree.{doc_of, tree_of};
ghost use Rattle.attr_merge.specs.Sources as spec;

use crate::layers::Layer;
use doc_tree::{NoMemory, Number, Text, Tree};
use std::alloc::Global;

/// Whether an entry gives a layer.
pub(crate) fn is_entry(entry: &Tree) -> bool
    ensures { result ≡ spec.is_entry (doc_of entry.now) }
{
    level(entry).is_some() && name(entry).is_some() && attributes(entry).is_some()
}

/// The layer that an entry gives, if it gives one of this level.
pub(crate) fn layer_at(
    alloc: Global,
    level_sought: u8,
    entry: &Tree,
) -> Result<Option<Layer>, NoMemory>
    ensures { IfOk result (λ found. found ≡ spec.layer_at level_sought (doc_of entry.now)) }
{
    match level(entry) {
        Some(level) => {
            if level == level_sought {
                layer_with(alloc, entry, level)
            } else {
                Ok(None)
            }
        }
        None => Ok(None),
    }
}

fn layer_with(alloc: Global, entry: &Tree, level: u8) -> Result<Option<Layer>, NoMemory>
    ensures { IfOk result (λ found. found ≡ spec.layer_with (doc_of entry.now) level) }
{
    match name(entry) {
        Some(name) => layer_named(alloc, entry, level, name),
        None => Ok(None),
    }
}

fn layer_named(
    alloc: Global,
    entry: &Tree,
    level: u8,
    name: &Text,
) -> Result<Option<Layer>, NoMemory>
    ensures { IfOk result (λ found. found ≡ option_map (λ tree. record { level = level; name = name.now; tree = tree_of tree })
        (option_and_then spec.dict_of (part_at (codes "tree") (doc_of entry.now)))) }
{
    match attributes(entry) {
        Some(tree) => layer(alloc, level, name, tree),
        None => Ok(None),
    }
}

#[tactic(auto, using(doc_tree::proofs::Docs::trees))]
fn layer(alloc: Global, level: u8, name: &Text, tree: &Tree) -> Result<Option<Layer>, NoMemory>
    ensures { IfOk result (λ found. found ≡ option_map (λ tree. record { level = level; name = name.now; tree = tree_of tree }) (Some (doc_of tree.now))) }
{
    let name = name.copy(alloc)?;
    let tree = tree.copy(alloc)?;
    Ok(Some(Layer { level, name, tree }))
}

fn part<'a>(entry: &'a Tree, key: &str) -> Option<&'a Tree>
    ensures { option_map (λ t. doc_of t.now) result ≡ part_at key.now (doc_of entry.now) }
{
    match entry {
        Tree::Dict(fields) => fields.get(key),
        Tree::Null | Tree::Bool(_) | Tree::Whole(_) | Tree::Words(_) | Tree::List(_) => None,
    }
}

fn level(entry: &Tree) -> Option<u8>
    ensures { result ≡ option_and_then spec.level_of (part_at (codes "level") (doc_of entry.now)) }
{
    match part(entry, "level") {
        Some(tree) => level_of(tree),
        None => None,
    }
}

fn level_of(tree: &Tree) -> Option<u8>
    ensures { result ≡ spec.level_of (doc_of tree.now) }
{
    match tree {
        Tree::Whole(number) => level_in(*number),
        Tree::Null | Tree::Bool(_) | Tree::Words(_) | Tree::List(_) | Tree::Dict(_) => None,
    }
}

fn level_in(number: Number) -> Option<u8>
    ensures { result ≡ spec.level_in number }
{
    let value = number.value();
    if 1 <= value && value <= 15 {
        Some(value as u8)
    } else {
        None
    }
}

fn name(entry: &Tree) -> Option<&Text>
    ensures { option_copied result ≡ option_and_then text_of (part_at (codes "name") (doc_of entry.now)) }
{
    match part(entry, "name") {
        Some(tree) => tree.text(),
        None => None,
    }
}

fn attributes(entry: &Tree) -> Option<&Tree>
    ensures { option_map (λ t. doc_of t.now) result ≡ option_and_then spec.dict_of (part_at (codes "tree") (doc_of entry.now)) }
{
    match part(entry, "tree") {
        Some(tree) => dict_of(tree),
        None => None,
    }
}

fn dict_of(tree: &Tree) -> Option<&Tree>
    ensures { option_map (λ t. doc_of t.now) result ≡ spec.dict_of (doc_of tree.now) }
{
    match tree {
        Tree::Dict(_) => Some(tree),
        Tree::Null | Tree::Bool(_) | Tree::Whole(_) | Tree::Words(_) | Tree::List(_) => None,
    }
}
