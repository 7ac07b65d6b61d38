//! The titles of what notifications are to create.
ghost use Rattle.std.specs.Prelude.{[], ◌∷◌, IfOk, OnOk, map};
ghost use Rattle.std.specs.List.{filter, filter_map};
ghost use Rattle.doc_tree.specs.Doc.{pairs_of};
ghost use Rattle.doc_tree.specs.Tree.{doc_of};
ghost use Rattle.resource_core.specs.Entries as spec;
ghost use Rattle.resource_core.specs.Titles.{Adds, HasTitles, pairs_by};

use crate::entries::entry_of;
use doc_tree::{Fields, NoMemory, Text, Tree, Trees};
use std::alloc::Global;
use std::collections::BTreeSet;

/// The `type[name]` of whatever an entry of a `notifies` of any resource is to create.
pub(crate) fn created_in(alloc: Global, all: &[&Fields]) -> Result<BTreeSet<Text>, NoMemory>
    ensures { IfOk result (HasTitles (spec.created (map pairs_by all.now))) }
{
    let mut titles = BTreeSet::new(alloc);
    for fields in all {
        add_created(alloc, &mut titles, fields)?;
    }
    Ok(titles)
}

#[tactic(auto, using(doc_tree::proofs::Docs::back))]
fn add_created(alloc: Global, titles: &mut BTreeSet<Text>, fields: &Fields) -> Result<(), NoMemory>
    ensures { OnOk result (Adds (spec.created_by (pairs_of fields.now)) titles.old titles.new) }
{
    match fields.get("notifies") {
        Some(Tree::List(trees)) => add_each(alloc, titles, trees),
        _ => Ok(()),
    }
}

fn add_each(alloc: Global, titles: &mut BTreeSet<Text>, trees: &Trees) -> Result<(), NoMemory>
    ensures { OnOk result (Adds (map (λ e. e.resource) (filter spec.is_to_create (filter_map spec.entry_of trees.now))) titles.old titles.new) }
{
    for tree in trees.as_slice() {
        add_one(alloc, titles, tree)?;
    }
    Ok(())
}

fn add_one(alloc: Global, titles: &mut BTreeSet<Text>, tree: &Tree) -> Result<(), NoMemory>
    ensures { OnOk result (Adds (map (λ e. e.resource) (filter spec.is_to_create (filter_map spec.entry_of (doc_of tree.now ∷ [])))) titles.old titles.new) }
{
    if let Some(stated) = entry_of(tree)
        && stated.action.as_str() == "create"
    {
        titles.insert(stated.resource.copy(alloc)?)?;
    }
    Ok(())
}
