//! The layers of a sources file, sorted by their levels.
ghost use Rattle.std.specs.Prelude.{◌≡◌, ◌++◌, IfOk, OnOk, Err, Some, None, true, false};
ghost use Rattle.std.specs.List.{filter_map, list_all};
ghost use Rattle.doc_tree.specs.Doc.{docs_of, list};
ghost use Rattle.doc_tree.specs.Tree.{doc_of};
ghost use Rattle.attr_merge.specs.Layers.{AreLayers};
ghost use Rattle.attr_merge.specs.Sources.{by_level, is_entry, layer_at, layers_in, layers_of};
ghost use Rattle.attr_merge.specs.declared.fault.SourcesFault.TheVariants.{NotSources};

use crate::fault::SourcesFault;
use crate::layers::Layer;
use crate::source_entries::{is_entry, layer_at};
use doc_tree::{Listed, NoMemory, ReadFault, Tree, Trees, read_json};
use std::alloc::Global;

// The levels, lowest first.
const LEVELS: [u8; 15] = [1, 2, 3, 4, 5, 6, 7, 8, 9, 10, 11, 12, 13, 14, 15];

/// The layers that a sources file gives, sorted by their levels, those of one level in the order of the file. The file is
/// JSON, a list of dicts with a `level` from 1 to 15, a text `name` and a dict `tree`; further keys are passed over.
///
/// It is `NotSources` exactly where the bytes have not that format.
pub fn read_sources(alloc: Global, bytes: &[u8]) -> Result<Listed<Layer>, SourcesFault>
    ensures layers { IfOk result (λ layers. layers_in bytes.now ≡ Some layers) }
    ensures merged { IfOk result AreLayers }
    ensures not_sources { result ≡ Err NotSources → layers_in bytes.now ≡ None }
{
    match read_json(alloc, bytes) {
        Ok(tree) => layers_of(alloc, &tree),
        Err(ReadFault::NotJson | ReadFault::TooDeep | ReadFault::NotWhole) => {
            Err(SourcesFault::NotSources)
        }
        Err(ReadFault::NoMemory) => Err(SourcesFault::NoMemory),
    }
}

fn layers_of(alloc: Global, tree: &Tree) -> Result<Listed<Layer>, SourcesFault>
    ensures layers { IfOk result (λ layers. layers_of (doc_of tree.now) ≡ Some layers) }
    ensures merged { IfOk result AreLayers }
    ensures not_sources { result ≡ Err NotSources → layers_of (doc_of tree.now) ≡ None }
{
    match tree {
        Tree::List(entries) => layers_in(alloc, entries),
        Tree::Null | Tree::Bool(_) | Tree::Whole(_) | Tree::Words(_) | Tree::Dict(_) => {
            Err(SourcesFault::NotSources)
        }
    }
}

#[tactic(auto, using(doc_tree::proofs::Docs::back))]
fn layers_in(alloc: Global, entries: &Trees) -> Result<Listed<Layer>, SourcesFault>
    ensures layers { IfOk result (λ layers. layers_of (list (docs_of entries.now)) ≡ Some layers) }
    ensures merged { IfOk result AreLayers }
    ensures not_sources { result ≡ Err NotSources → layers_of (list (docs_of entries.now)) ≡ None }
{
    if !are_entries(entries) {
        return Err(SourcesFault::NotSources);
    }
    Ok(sorted(alloc, entries)?)
}

fn are_entries(entries: &Trees) -> bool
    ensures { result ≡ list_all is_entry entries.now }
{
    for entry in entries.as_slice() {
        if !is_entry(entry) {
            return false;
        }
    }
    true
}

// The layers of the entries, level by level.
fn sorted(alloc: Global, entries: &Trees) -> Result<Listed<Layer>, NoMemory>
    ensures layers { IfOk result (λ layers. layers ≡ by_level entries.now) }
    ensures merged { IfOk result AreLayers }
{
    let mut layers = Vec::new(alloc);
    for level in LEVELS {
        add_layers(alloc, level, entries, &mut layers)?;
    }
    Ok(Listed::of(layers))
}

fn add_layers(
    alloc: Global,
    level: u8,
    entries: &Trees,
    layers: &mut Vec<Layer>,
) -> Result<(), NoMemory>
    ensures { OnOk result (layers.new.items ≡ layers.old.items ++ filter_map (layer_at level) entries.now) }
{
    for entry in entries.as_slice() {
        if let Some(layer) = layer_at(alloc, level, entry)? {
            layers.push(layer)?;
        }
    }
    Ok(())
}
