//! The merge of layers.
ghost use Rattle.attr_merge.specs.Children.{AreValues};
ghost use Rattle.attr_merge.specs.Effective.{IsEffective};
ghost use Rattle.attr_merge.specs.Families.{all_elements, counting_below, joined, positions};
ghost use Rattle.attr_merge.specs.Elements.{with_elements};
ghost use Rattle.attr_merge.specs.Layers.{AreLayers};
ghost use Rattle.attr_merge.specs.Merge.{AreEffective, IsMergeOf};
ghost use Rattle.attr_merge.specs.Merged.{origin_at};
ghost use Rattle.attr_merge.specs.Nodes.{leaves_of};
ghost use Rattle.attr_merge.specs.Parts.{piece_of, pieces_of};
ghost use Rattle.doc_tree.specs.Doc.{dict, no_pairs, pairs_of};
ghost use Rattle.doc_tree.specs.Part.{at};
ghost use Rattle.doc_tree.specs.Tree.{doc_of};
ghost use Rattle.std.specs.Prelude.{◌≡◌, ◌<◌, [], ◌∷◌, ℕ, List, IfOk, None, length, reverse};

use crate::children::children_of;
use crate::elements::Elements;
use crate::layers::Layer;
use crate::merged::Merged;
use crate::nodes::{Inner, Node};
use crate::parts::{Part, counting, parts_of, positions};
use doc_tree::{NoMemory, Tree, Trees};
use std::alloc::Global;

/// Merges layers, the lowest first. Later layers of one level stand higher.
///
/// Null is no value. A layer is cut at a path where a higher layer has, at a proper prefix of the path, a value that is
/// neither a dict nor null. The highest layer that isn't cut at a path and has a value there decides it. A scalar is a
/// leaf, and so is an array; those of the default levels (1 to 6), or of the override levels (9 to 14), that stand
/// above the highest value of these levels that is no array are joined where there are two or more, lowest first, each
/// element at its first occurrence. A dict is the leaf `{}` where nothing stands below it, and else no leaf. The root
/// is no leaf.
///
/// It goes over each layer once. `NoMemory` is its only fault.
pub fn merge(alloc: Global, layers: &[Layer]) -> Result<Merged, NoMemory>
    requires { AreLayers layers.now }
    ensures { IfOk result (IsMergeOf layers.now) }
{
    let parts = parts_of(alloc, layers)?;
    let inner = merge_dicts(alloc, &parts)?;
    Merged::of(alloc, inner)
}

// The merge of what the layers have at one path, where the highest has a value.
#[cycle(merging)]
fn merge_parts(alloc: Global, parts: &[Part]) -> Result<Node, NoMemory>
    requires some { 0 < length parts.now }
    requires values { AreValues (pieces_of parts.now) }
    ensures { IfOk result (λ node. (path : List (List ℕ)) → IsEffective (pieces_of parts.now) path (at path (doc_of node.tree)) (origin_at path (leaves_of node.leaves.items))) }
{
    let top = &parts[0];
    match top.tree {
        Tree::Dict(_) => {
            let inner = merge_dicts(alloc, parts)?;
            dict_node(alloc, top, inner)
        }
        Tree::List(_) => merge_arrays(alloc, top, &parts[1..]),
        _ => scalar_node(alloc, top),
    }
}

// The merge of the dicts at one path, down to the first value that is none.
#[cycle(merging)]
fn merge_dicts(alloc: Global, parts: &[Part]) -> Result<Inner, NoMemory>
    ensures root { IfOk result (λ inner. origin_at [] (leaves_of inner.leaves.items) ≡ None) }
    ensures below { IfOk result (λ inner. AreEffective (pieces_of parts.now) (dict (pairs_of inner.fields)) (leaves_of inner.leaves.items)) }
{
    let children = children_of(alloc, parts)?;
    let empty = Inner::with_room(alloc, children.len())?;
    let mut inner = empty;
    for (key, child) in children {
        // Each child has a part; that the merge ends needs to know it here.
        if !child.is_empty() {
            let node = merge_parts(alloc, &child)?;
            inner = inner.with(alloc, key, node)?;
        }
    }
    Ok(inner)
}

// A dict with fields, or the leaf `{}`.
fn dict_node(alloc: Global, top: &Part, inner: Inner) -> Result<Node, NoMemory>
    ensures some { IfOk result (λ node. (inner.fields ≡ [] → ⊥) → (doc_of node.tree ≡ dict (pairs_of inner.fields)) × (node.leaves ≡ inner.leaves)) }
    ensures none { IfOk result (λ node. inner.fields ≡ [] → (doc_of node.tree ≡ dict no_pairs) × (leaves_of node.leaves.items ≡ ([], top.now.position ∷ []) ∷ [])) }
{
    let Inner { fields, leaves } = inner;
    if fields.is_empty() {
        Node::leaf(alloc, Tree::Dict(fields), one_position(alloc, top)?)
    } else {
        Ok(Node {
            tree: Tree::Dict(fields),
            leaves,
        })
    }
}

// A value that is a leaf by itself.
fn scalar_node(alloc: Global, top: &Part) -> Result<Node, NoMemory>
    ensures { IfOk result (λ node. (node.tree ≡ top.now.tree.now) × (leaves_of node.leaves.items ≡ ([], top.now.position ∷ []) ∷ [])) }
{
    Node::leaf(alloc, top.tree.copy(alloc)?, one_position(alloc, top)?)
}

fn one_position(alloc: Global, top: &Part) -> Result<Vec<usize>, NoMemory>
    ensures { IfOk result (λ found. found.items ≡ top.now.position ∷ []) }
{
    let mut found = Vec::with_capacity(alloc, 1)?;
    found.push(top.position)?;
    Ok(found)
}

// The leaf that an array makes with the arrays that count below it.
fn merge_arrays<'a>(alloc: Global, top: &Part<'a>, below: &[Part<'a>]) -> Result<Node, NoMemory>
    ensures { IfOk result (λ node. let counting = counting_below (piece_of top.now) (pieces_of below.now) in
        (doc_of node.tree ≡ joined (piece_of top.now) counting) × (leaves_of node.leaves.items ≡ ([], positions (piece_of top.now ∷ counting)) ∷ [])) }
{
    let arrays = counting(alloc, top, below)?;
    let origin = positions(alloc, &arrays)?;
    let tree = if arrays.len() < 2 {
        top.tree.copy(alloc)?
    } else {
        Tree::List(join(alloc, arrays)?)
    };
    Node::leaf(alloc, tree, origin)
}

// The elements of arrays, lowest array first, each at its first occurrence.
fn join(alloc: Global, arrays: Vec<Part>) -> Result<Trees, NoMemory>
    ensures { IfOk result (λ trees. trees ≡ with_elements [] (all_elements (reverse (pieces_of arrays.entry.items)))) }
{
    let mut arrays = arrays;
    arrays.reverse();
    let mut elements = Elements::none(alloc);
    for array in &arrays {
        elements = elements.with_array(alloc, array.tree)?;
    }
    Ok(elements.into_trees())
}
