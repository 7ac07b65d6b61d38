//! The run lists that documents are.
ghost use Rattle.std.specs.Prelude.{◌≡◌, IfOk};
ghost use Rattle.doc_tree.specs.Doc.{words};
ghost use Rattle.doc_tree.specs.Tree.{doc_of};
ghost use Rattle.run_lists.specs.Reading as spec;

use crate::asking::names_a_role;
use crate::item_fault::ItemFault;
use crate::items::{Item, Items, read_item};
use doc_tree::{NoMemory, Text, Tree, Trees};
use std::alloc::Global;

/// What a run list may hold.
#[derive(Clone, Copy, Drop)]
pub enum Allowed {
    /// Recipes and roles.
    Items,
    /// Recipes alone.
    Recipes,
}

/// The run list that a tree is, which may hold these items: as `run_list_of` reads it, or as `recipes_of` does.
pub fn items_read(alloc: Global, allowed: Allowed, tree: &Tree) -> Result<Option<Items>, NoMemory>
    ensures { IfOk result (λ found. found ≡ spec.items_read allowed (doc_of tree.now)) }
{
    match allowed {
        Allowed::Items => run_list_of(alloc, tree),
        Allowed::Recipes => recipes_of(alloc, tree),
    }
}

/// The run list that a tree is: a list of texts that each spell an item. It is `None` exactly where the tree is no list,
/// or an entry of it is no item.
#[tactic(auto, using(doc_tree::proofs::Docs::back))]
pub fn run_list_of(alloc: Global, tree: &Tree) -> Result<Option<Items>, NoMemory>
    ensures { IfOk result (λ found. found ≡ spec.run_list_of (doc_of tree.now)) }
{
    match tree {
        Tree::List(trees) => items_of(alloc, trees),
        Tree::Null | Tree::Bool(_) | Tree::Whole(_) | Tree::Words(_) | Tree::Dict(_) => Ok(None),
    }
}

/// The run list that a tree is, as `run_list_of` reads it, where none of its items is a role. It is `None` exactly where
/// it is no run list, or one of its items is a role.
pub fn recipes_of(alloc: Global, tree: &Tree) -> Result<Option<Items>, NoMemory>
    ensures { IfOk result (λ found. found ≡ spec.recipes_of (doc_of tree.now)) }
{
    match run_list_of(alloc, tree)? {
        Some(items) => {
            if names_a_role(items.as_slice()) {
                Ok(None)
            } else {
                Ok(Some(items))
            }
        }
        None => Ok(None),
    }
}

fn items_of(alloc: Global, trees: &Trees) -> Result<Option<Items>, NoMemory>
    ensures { IfOk result (λ found. found ≡ spec.each_of spec.item_of trees.now) }
{
    let mut items = Items::new(alloc);
    for tree in trees.as_slice() {
        match item_of(alloc, tree)? {
            None => return Ok(None),
            Some(item) => items.push(item)?,
        }
    }
    Ok(Some(items))
}

fn item_of(alloc: Global, tree: &Tree) -> Result<Option<Item>, NoMemory>
    ensures { IfOk result (λ found. found ≡ spec.item_of (doc_of tree.now)) }
{
    match tree {
        Tree::Words(text) => item_in(alloc, text),
        Tree::Null | Tree::Bool(_) | Tree::Whole(_) | Tree::List(_) | Tree::Dict(_) => Ok(None),
    }
}

fn item_in(alloc: Global, text: &Text) -> Result<Option<Item>, NoMemory>
    ensures { IfOk result (λ found. found ≡ spec.item_of (words text.now)) }
{
    match read_item(alloc, text) {
        Ok(item) => Ok(Some(item)),
        Err(ItemFault::NotAnItem | ItemFault::BadVersion) => Ok(None),
        Err(ItemFault::NoMemory) => Err(NoMemory),
    }
}
