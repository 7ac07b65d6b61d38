//! Run lists, as they are stored.
ghost use Rattle.std.specs.Prelude.{◌≡◌, IfOk, option_map};
ghost use Rattle.doc_tree.specs.Tree.{doc_of};
ghost use Rattle.object_forms.specs.Forms as spec;

use doc_tree::{NoMemory, Tree};
use run_lists::{Allowed, by_name_tree, named_run_lists, run_list_of, run_list_tree};
use std::alloc::Global;

/// A run list as it is stored, or `None` where the tree is no list of items.
pub(crate) fn stored_run_list(alloc: Global, tree: &Tree) -> Result<Option<Tree>, NoMemory>
    ensures { IfOk result (λ found. option_map doc_of found ≡ spec.stored_run_list (doc_of tree.now)) }
{
    match run_list_of(alloc, tree)? {
        None => Ok(None),
        Some(items) => Ok(Some(run_list_tree(alloc, &items)?)),
    }
}

/// A Dict from Names to run lists as it is stored, or `None` where the tree is none.
pub(crate) fn stored_by_name(alloc: Global, tree: &Tree) -> Result<Option<Tree>, NoMemory>
    ensures { IfOk result (λ found. option_map doc_of found ≡ spec.stored_by_name (doc_of tree.now)) }
{
    match named_run_lists(alloc, Allowed::Items, tree)? {
        None => Ok(None),
        Some(lists) => Ok(Some(by_name_tree(alloc, &lists)?)),
    }
}
