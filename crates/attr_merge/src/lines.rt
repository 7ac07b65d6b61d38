//! The lines of leaves.
ghost use Rattle.std.specs.Prelude.{◌≡◌, ◌++◌, [], OnOk, IfOk, map, true, false, Some, codes, slice_get, unwrap_or, if◌then◌else◌};
ghost use Rattle.std.specs.List.{flat_map};
ghost use Rattle.doc_tree.specs.Doc.{words};
ghost use Rattle.doc_tree.specs.Part.{at};
ghost use Rattle.attr_merge.specs.Merged.{origin_at};
ghost use Rattle.attr_merge.specs.Lines as spec;

use crate::layers::Layer;
use crate::merged::{Leaves, Merged};
use doc_tree::{NoMemory, Number, Text, Texts, Tree, Trees, json_text};
use std::alloc::Global;

/// The lines of these leaves.
pub(crate) fn lines(
    alloc: Global,
    layers: &[Layer],
    merged: &Merged,
    leaves: &Leaves,
) -> Result<Vec<u8>, NoMemory>
    ensures { IfOk result (λ out. out.items ≡ flat_map (spec.line layers.now merged.now) leaves.now) }
{
    let mut out = Vec::new(alloc);
    for path in leaves.as_slice() {
        add_line(alloc, &mut out, layers, merged, path)?;
    }
    Ok(out)
}

fn add_line(
    alloc: Global,
    out: &mut Vec<u8>,
    layers: &[Layer],
    merged: &Merged,
    path: &Texts,
) -> Result<(), NoMemory>
    ensures { OnOk result (out.new.items ≡ out.old.items ++ spec.line layers.now merged.now path.now) }
{
    add_path(alloc, out, path.as_slice())?;
    add(out, b" = ")?;
    add_value(alloc, out, merged, path.as_slice())?;
    add(out, b" <- ")?;
    add_origin(alloc, out, layers, merged, path.as_slice())?;
    add(out, b"\n")
}

fn add(out: &mut Vec<u8>, piece: &[u8]) -> Result<(), NoMemory>
    ensures { OnOk result (out.new.items ≡ out.old.items ++ piece.now) }
{
    out.extend_from_slice(piece)?;
    Ok(())
}

fn add_path(alloc: Global, out: &mut Vec<u8>, path: &[Text]) -> Result<(), NoMemory>
    ensures { OnOk result (out.new.items ≡ out.old.items ++ spec.path_text path.now) }
{
    let keys = Tree::List(keys_of(alloc, path)?);
    let text = json_text(alloc, &keys)?;
    add(out, text.as_slice())
}

fn keys_of(alloc: Global, path: &[Text]) -> Result<Trees, NoMemory>
    ensures { IfOk result (λ trees. trees ≡ map words path.now) }
{
    let mut trees = Trees::new(alloc);
    for key in path {
        trees.push(Tree::Words(key.copy(alloc)?))?;
    }
    Ok(trees)
}

fn add_value(
    alloc: Global,
    out: &mut Vec<u8>,
    merged: &Merged,
    path: &[Text],
) -> Result<(), NoMemory>
    ensures { OnOk result (out.new.items ≡ out.old.items ++ spec.value_text (at path.now merged.now.document)) }
{
    match merged.value(path) {
        Some(tree) => {
            let text = json_text(alloc, tree)?;
            add(out, text.as_slice())
        }
        None => Ok(()),
    }
}

fn add_origin(
    alloc: Global,
    out: &mut Vec<u8>,
    layers: &[Layer],
    merged: &Merged,
    path: &[Text],
) -> Result<(), NoMemory>
    ensures { OnOk result (out.new.items ≡ out.old.items ++ spec.origin_text layers.now false (unwrap_or (origin_at path.now merged.now.leaves) [])) }
{
    match merged.origin(path) {
        Some(positions) => add_positions(alloc, out, layers, positions),
        None => Ok(()),
    }
}

fn add_positions(
    alloc: Global,
    out: &mut Vec<u8>,
    layers: &[Layer],
    positions: &[usize],
) -> Result<(), NoMemory>
    ensures { OnOk result (out.new.items ≡ out.old.items ++ spec.origin_text layers.now false positions.now) }
{
    let mut later = false;
    for position in positions {
        add_position(alloc, out, layers, later, *position)?;
        later = true;
    }
    Ok(())
}

fn add_position(
    alloc: Global,
    out: &mut Vec<u8>,
    layers: &[Layer],
    later: bool,
    position: usize,
) -> Result<(), NoMemory>
    ensures { OnOk result (out.new.items ≡ out.old.items ++ ((if later then codes ", " else []) ++ spec.layer_text (slice_get layers.now position))) }
{
    if later {
        add(out, b", ")?;
    }
    add_layer_at(alloc, out, layers, position)
}

fn add_layer_at(
    alloc: Global,
    out: &mut Vec<u8>,
    layers: &[Layer],
    position: usize,
) -> Result<(), NoMemory>
    ensures { OnOk result (out.new.items ≡ out.old.items ++ spec.layer_text (slice_get layers.now position)) }
{
    match layers.get(position) {
        Some(layer) => add_layer(alloc, out, layer),
        None => Ok(()),
    }
}

fn add_layer(alloc: Global, out: &mut Vec<u8>, layer: &Layer) -> Result<(), NoMemory>
    ensures { OnOk result (out.new.items ≡ out.old.items ++ spec.layer_text (Some layer.now)) }
{
    let level = json_text(alloc, &Tree::Whole(Number::from(u64::from(layer.level))))?;
    add(out, level.as_slice())?;
    add(out, b" ")?;
    add(out, layer.name.as_bytes())
}
