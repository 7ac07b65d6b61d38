//! What the layers have at one path, while they are merged.
ghost use Rattle.attr_merge.specs.Families.{arrays_above, counting_below, is_array, positions};
ghost use Rattle.attr_merge.specs.Layers.{highest_first};
ghost use Rattle.attr_merge.specs.Parts.{piece_of, pieces_of};
ghost use Rattle.attr_merge.specs.Pieces.{is_null, is_plain};
ghost use Rattle.doc_tree.specs.Tree.{doc_of};
ghost use Rattle.std.specs.Prelude.{◌≡◌, ◌∷◌, ◌++◌, IfOk, OnOk};

use crate::families::{Family, combines, family_of, same_family};
use crate::layers::Layer;
use doc_tree::{NoMemory, Tree};
use std::alloc::Global;

/// What a layer has at a path: the layer's position and level, and its tree there. Lists of parts have the highest
/// layer first.
#[derive(Clone, Copy, Drop)]
pub(crate) struct Part<'a> {
    pub(crate) position: usize,
    pub(crate) level: u8,
    pub(crate) tree: &'a Tree,
}

/// The layers as parts.
pub(crate) fn parts_of<'a>(alloc: Global, layers: &'a [Layer]) -> Result<Vec<Part<'a>>, NoMemory>
    ensures { IfOk result (λ parts. pieces_of parts.items ≡ highest_first layers.now) }
{
    let mut parts = Vec::with_capacity(alloc, layers.len())?;
    for (position, layer) in layers.iter().enumerate() {
        parts.push(Part {
            position,
            level: layer.level,
            tree: &layer.tree,
        })?;
    }
    parts.reverse();
    Ok(parts)
}

/// Whether a tree is null.
pub(crate) fn is_null(tree: &Tree) -> bool
    ensures { result ≡ is_null (doc_of tree.now) }
{
    match tree {
        Tree::Null => true,
        _ => false,
    }
}

/// Whether a tree is neither a dict nor null.
pub(crate) fn is_plain(tree: &Tree) -> bool
    ensures { result ≡ is_plain (doc_of tree.now) }
{
    match tree {
        Tree::Null | Tree::Dict(_) => false,
        _ => true,
    }
}

fn is_array(tree: &Tree) -> bool
    ensures { result ≡ is_array (doc_of tree.now) }
{
    match tree {
        Tree::List(_) => true,
        _ => false,
    }
}

/// The highest part, an array, with the arrays that count below it.
pub(crate) fn counting<'a>(
    alloc: Global,
    top: &Part<'a>,
    below: &[Part<'a>],
) -> Result<Vec<Part<'a>>, NoMemory>
    ensures { IfOk result (λ parts. pieces_of parts.items ≡ piece_of top.now ∷ counting_below (piece_of top.now) (pieces_of below.now)) }
{
    let mut arrays = Vec::new(alloc);
    arrays.push(*top)?;
    let family = family_of(top.level);
    if combines(family) {
        add_arrays(&mut arrays, family, below)?;
    }
    Ok(arrays)
}

// Adds the arrays of a family, down to its highest value that isn't one.
fn add_arrays<'a>(
    arrays: &mut Vec<Part<'a>>,
    family: Family,
    below: &[Part<'a>],
) -> Result<(), NoMemory>
    ensures { OnOk result (pieces_of arrays.new.items ≡ pieces_of arrays.old.items ++ arrays_above family (pieces_of below.now)) }
{
    for part in below {
        if same_family(family, family_of(part.level)) {
            if !is_array(part.tree) {
                return Ok(());
            }
            arrays.push(*part)?;
        }
    }
    Ok(())
}

/// The positions of parts, lowest first.
pub(crate) fn positions(alloc: Global, parts: &[Part]) -> Result<Vec<usize>, NoMemory>
    ensures { IfOk result (λ found. found.items ≡ positions (pieces_of parts.now)) }
{
    let mut found = Vec::with_capacity(alloc, parts.len())?;
    for part in parts {
        found.push(part.position)?;
    }
    found.reverse();
    Ok(found)
}
