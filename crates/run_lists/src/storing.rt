//! Run lists as they are stored.
ghost use Rattle.std.specs.Prelude.{◌≡◌, IfOk};
ghost use Rattle.doc_tree.specs.Tree.{doc_of};
ghost use Rattle.run_lists.specs.ByName.{AreInOrder};
ghost use Rattle.run_lists.specs.Storing as spec;

use crate::by_name::NamedRunLists;
use crate::items::Items;
use doc_tree::{Fields, NoMemory, Tree, Trees};
use std::alloc::Global;

/// A run list as it is stored: the list of its items' texts, with no spare room.
pub fn run_list_tree(alloc: Global, items: &Items) -> Result<Tree, NoMemory>
    ensures { IfOk result (λ tree. doc_of tree ≡ spec.run_list_doc items.now) }
{
    let mut trees = Trees::with_capacity(alloc, items.len())?;
    for item in items.as_slice() {
        trees.push(Tree::Words(item.text().copy(alloc)?))?;
    }
    Ok(Tree::List(trees))
}

/// Run lists under names as they are stored, where the names stand in byte order, as they do where they were read: the
/// Dict of them, with no spare room.
pub fn by_name_tree(alloc: Global, lists: &NamedRunLists) -> Result<Tree, NoMemory>
    requires { AreInOrder lists.now }
    ensures { IfOk result (λ tree. doc_of tree ≡ spec.by_name_doc lists.now) }
{
    let mut made = Fields::with_capacity(alloc, lists.len())?;
    for named in lists.as_slice() {
        let name = named.name.as_text().copy(alloc)?;
        made.push(name, run_list_tree(alloc, &named.run_list)?)?;
    }
    Ok(Tree::Dict(made))
}
