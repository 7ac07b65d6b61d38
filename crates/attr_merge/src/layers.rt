//! The layers of a merge.
ghost use Rattle.attr_merge.specs.Layers.{AreLayers, are_from, is_dict};
ghost use Rattle.doc_tree.specs.Tree.{doc_of};
ghost use Rattle.std.specs.Prelude.{◌≡◌, ◌↔◌, IsTrue};

use doc_tree::{Text, Tree};

/// Attributes of one source: their level from 1 to 15, the source's name, and a dict.
#[derive(Drop)]
pub struct Layer {
    /// The level: 1 to 6 for default attributes, 7 and 8 for normal, 9 to 14 for override, 15 for automatic ones.
    pub level: u8,
    /// The name of the source.
    pub name: Text,
    /// The attributes, a dict.
    pub tree: Tree,
}

/// Whether layers can be merged: their levels lie in 1 to 15 and don't fall, and each tree is a dict. It takes no
/// memory.
pub fn are_layers(layers: &[Layer]) -> bool
    ensures { IsTrue result ↔ AreLayers layers.now }
{
    are_from(layers)
}

fn are_from(layers: &[Layer]) -> bool
    ensures { result ≡ are_from 1 layers.now }
{
    let mut lowest = 1;
    for layer in layers {
        if layer.level < lowest || layer.level > 15 || !is_dict(&layer.tree) {
            return false;
        }
        lowest = layer.level;
    }
    true
}

fn is_dict(tree: &Tree) -> bool
    ensures { result ≡ is_dict (doc_of tree.now) }
{
    match tree {
        Tree::Dict(_) => true,
        _ => false,
    }
}
