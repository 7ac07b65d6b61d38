//! Reading a role from its stored object.
ghost use Rattle.std.specs.Prelude.{◌≡◌, IfOk, codes, option_and_then, option_map};
ghost use Rattle.doc_tree.specs.Part.{part_at};
ghost use Rattle.doc_tree.specs.Tree.{doc_of};
ghost use Rattle.run_lists.specs.ByName as by_name;
ghost use Rattle.run_lists.specs.Reading as reading;
ghost use Rattle.run_lists.specs.RoleReading as spec;
ghost use Rattle.run_lists.specs.declared.reading.Allowed.TheVariants as allowed;

use crate::by_name::{NamedRunLists, name_in, named_run_lists};
use crate::items::Items;
use crate::reading::{Allowed, run_list_of};
use crate::roles::{Role, RunLists};
use doc_tree::{Name, NoMemory, Tree};
use std::alloc::Global;

/// The role that an object is, or `None` exactly where it has not the fields of one: `name`, a Name, `run_list`, a list of
/// items, and `env_run_lists`, a dict from Names to lists of items. Each stored role has them.
pub fn read_role(alloc: Global, tree: &Tree) -> Result<Option<Role>, NoMemory>
    ensures { IfOk result (λ found. found ≡ spec.role_of (doc_of tree.now)) }
{
    let Some(name) = name_at(alloc, tree)? else {
        return Ok(None);
    };
    match run_lists_in(alloc, tree)? {
        Some(run_lists) => Ok(Some(Role { name, run_lists })),
        None => Ok(None),
    }
}

fn run_lists_in(alloc: Global, tree: &Tree) -> Result<Option<RunLists>, NoMemory>
    ensures { IfOk result (λ found. found ≡ spec.run_lists_of (doc_of tree.now)) }
{
    let Some(run_list) = run_list_at(alloc, tree)? else {
        return Ok(None);
    };
    match env_run_lists_at(alloc, tree)? {
        Some(env_run_lists) => Ok(Some(RunLists {
            run_list,
            env_run_lists,
        })),
        None => Ok(None),
    }
}

fn part<'a>(tree: &'a Tree, key: &str) -> Option<&'a Tree>
    ensures { option_map (λ t. doc_of t.now) result ≡ part_at key.now (doc_of tree.now) }
{
    match tree {
        Tree::Dict(fields) => fields.get(key),
        Tree::Null | Tree::Bool(_) | Tree::Whole(_) | Tree::Words(_) | Tree::List(_) => None,
    }
}

fn name_at(alloc: Global, tree: &Tree) -> Result<Option<Name>, NoMemory>
    ensures { IfOk result (λ found. found ≡ option_and_then spec.name_of (part_at (codes "name") (doc_of tree.now))) }
{
    match part(tree, "name") {
        Some(Tree::Words(text)) => name_in(alloc, text),
        Some(Tree::Null | Tree::Bool(_) | Tree::Whole(_) | Tree::List(_) | Tree::Dict(_)) | None =>
            { Ok(None) }
    }
}

fn run_list_at(alloc: Global, tree: &Tree) -> Result<Option<Items>, NoMemory>
    ensures { IfOk result (λ found. found ≡ option_and_then reading.run_list_of (part_at (codes "run_list") (doc_of tree.now))) }
{
    match part(tree, "run_list") {
        Some(list) => run_list_of(alloc, list),
        None => Ok(None),
    }
}

fn env_run_lists_at(alloc: Global, tree: &Tree) -> Result<Option<NamedRunLists>, NoMemory>
    ensures { IfOk result (λ found. found ≡ option_and_then (by_name.named_run_lists allowed.Items) (part_at (codes "env_run_lists") (doc_of tree.now))) }
{
    match part(tree, "env_run_lists") {
        Some(lists) => named_run_lists(alloc, Allowed::Items, lists),
        None => Ok(None),
    }
}
