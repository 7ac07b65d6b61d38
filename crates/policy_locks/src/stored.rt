//! A lock as it is stored.
ghost use Rattle.std.specs.Prelude.{◌≡◌, ◌∷◌, ◌++◌, IfOk, OnOk, [], map};
ghost use Rattle.std.specs.Map.{keys_of};
ghost use Rattle.doc_tree.specs.Doc.{pairs_of};
ghost use Rattle.doc_tree.specs.Tree.{doc_of, pair_of};
ghost use Rattle.doc_tree.specs.Valid.{InOrder};
ghost use Rattle.doc_tree.specs.declared.tree.Tree.TheVariants as tree;
ghost use Rattle.cookbook_meta.specs.Stored as kept;
ghost use Rattle.policy_locks.specs.Stored as spec;

use crate::lock::Lock;
use crate::put::put_tree;
use doc_tree::{Field, Fields, NoMemory, Tree};
use run_lists::{Items, NamedRunList, NamedRunLists, run_list_tree};
use std::alloc::Global;

/// The keys of the fields that aren't stored as they were sent.
static SETTLED: [&str; 5] = [
    "run_list",
    "named_run_lists",
    "default_attributes",
    "override_attributes",
    "solution_dependencies",
];

/// The stored object of a lock whose body is this one.
pub(crate) fn whole_of(alloc: Global, lock: &Lock, body: &Fields) -> Result<Tree, NoMemory>
    ensures { IfOk result (λ whole. whole ≡ tree.Dict (spec.whole_of lock.now.run_list lock.now.named_run_lists lock.now.default_attributes lock.now.override_attributes lock.now.solution_dependencies (pairs_of body.now))) }
{
    let mut made = beside(alloc, body)?;
    put_run_lists(alloc, &mut made, &lock.run_list, &lock.named_run_lists)?;
    let default = &lock.default_attributes;
    let over = &lock.override_attributes;
    put_dicts(alloc, &mut made, default, over, &lock.solution_dependencies)?;
    Ok(Tree::Dict(made))
}

/// What a body has beside the fields that aren't stored as they were sent.
fn beside(alloc: Global, body: &Fields) -> Result<Fields, NoMemory>
    ensures { IfOk result (λ made. made ≡ kept.beside spec.is_settled body.now) }
{
    let mut made = Fields::new(alloc);
    for field in body.as_slice() {
        if !is_settled(field.key.as_str()) {
            push_copy(alloc, &mut made, field)?;
        }
    }
    Ok(made)
}

/// Adds a copy of a field at the end, whose key is above those of the others.
fn push_copy(alloc: Global, made: &mut Fields, field: &Field) -> Result<(), NoMemory>
    requires { InOrder (keys_of made.old ++ field.now.key ∷ []) }
    ensures { OnOk result (made.new ≡ made.old ++ pair_of field.now ∷ []) }
{
    let key = field.key.copy(alloc)?;
    made.push(key, field.tree.copy(alloc)?)
}

fn is_settled(key: &str) -> bool
    ensures { result ≡ spec.is_settled key.now }
{
    is_among(key, settled())
}

fn settled() -> &'static [&'static str]
    ensures { map (λ s. s.now) result.now ≡ spec.settled_keys }
{
    &SETTLED
}

fn is_among(key: &str, keys: &[&str]) -> bool
    ensures { result ≡ kept.is_among key.now (map (λ s. s.now) keys.now) }
{
    keys.contains(&key)
}

/// Puts in the run lists, as they are stored.
pub(crate) fn put_run_lists(
    alloc: Global,
    made: &mut Fields,
    run_list: &Items,
    lists: &NamedRunLists,
) -> Result<(), NoMemory>
    ensures { OnOk result (made.new ≡ kept.with_pairs (spec.run_list_fields run_list.now lists.now) made.old) }
{
    let tree = run_list_tree(alloc, run_list)?;
    put_tree(alloc, made, "run_list", tree)?;
    let tree = named_tree(alloc, lists)?;
    put_tree(alloc, made, "named_run_lists", tree)?;
    Ok(())
}

/// Puts in the attributes, and what a solution depends on.
pub(crate) fn put_dicts(
    alloc: Global,
    made: &mut Fields,
    default: &Fields,
    over: &Fields,
    solution: &Fields,
) -> Result<(), NoMemory>
    ensures { OnOk result (made.new ≡ kept.with_pairs (spec.dict_fields default.now over.now solution.now) made.old) }
{
    let tree = Tree::Dict(default.copy(alloc)?);
    put_tree(alloc, made, "default_attributes", tree)?;
    let tree = Tree::Dict(over.copy(alloc)?);
    put_tree(alloc, made, "override_attributes", tree)?;
    let tree = Tree::Dict(solution.copy(alloc)?);
    put_tree(alloc, made, "solution_dependencies", tree)?;
    Ok(())
}

fn named_tree(alloc: Global, lists: &NamedRunLists) -> Result<Tree, NoMemory>
    ensures { IfOk result (λ tree. doc_of tree ≡ spec.named_doc lists.now) }
{
    let mut made = Fields::new(alloc);
    for named in lists.as_slice() {
        put_named(alloc, &mut made, named)?;
    }
    Ok(Tree::Dict(made))
}

ghost use Rattle.doc_tree.specs.Part.{with_pair};
ghost use Rattle.run_lists.specs.Storing.{run_list_doc};

fn put_named(alloc: Global, made: &mut Fields, named: &NamedRunList) -> Result<(), NoMemory>
    ensures { OnOk result (made.new ≡ with_pair named.now.name (run_list_doc named.now.run_list) made.old) }
{
    let tree = run_list_tree(alloc, &named.run_list)?;
    put_tree(alloc, made, named.name.as_str(), tree)?;
    Ok(())
}
