//! Making a lock of a source: the best versions of what it asks for, each with its identifier.
ghost use Rattle.std.specs.Prelude.{◌≡◌, IfErr, IfOk, Some, []};
ghost use Rattle.policy_locks.specs.Making as spec;
ghost use Rattle.run_lists.specs.Reading.{each_of};

use crate::depends::solution_of;
use crate::digests::{digest_name, lines_of};
use crate::identifiers::{Identifiers, identifier_for};
use crate::lock::{CookbookLock, CookbookLocks, Lock};
use crate::make_fault::MakeFault;
use crate::put::{put_text, put_tree};
use crate::source::PolicySource;
use crate::stored::{put_dicts, put_run_lists};
use dep_solver::{NoSolution, Pin, Pins, Universe, solve};
use doc_tree::{Fields, Name, NoMemory, Text, Tree};
use run_lists::{Items, NamedRunLists, roots_of};
use std::alloc::Global;

/// The lock that is made of a source: the best versions of what its run lists ask for under its rules, out of these
/// cookbooks, each locked under the identifier that was handed in for it.
///
/// It is `Unsolvable` exactly where there is no solution, and else `NoIdentifier` exactly where no identifier was handed
/// in for a chosen version: of the first of these cookbooks in byte order.
pub fn make_lock(
    alloc: Global,
    source: &PolicySource,
    universe: &Universe,
    identifiers: &Identifiers,
) -> Result<Lock, MakeFault>
    ensures lock { IfOk result (spec.IsMade source.now universe.now identifiers.now) }
    ensures fault { IfErr result (spec.Tells source.now universe.now identifiers.now) }
{
    let chosen = best_versions(alloc, source, universe)?;
    let cookbooks = locked(alloc, identifiers, &chosen)?;
    let solution = solution_of(alloc, source, universe, &chosen)?;
    Ok(lock_with(alloc, source, cookbooks, solution)?)
}

/// The best solution of what a source asks for, in byte order of names.
fn best_versions(
    alloc: Global,
    source: &PolicySource,
    universe: &Universe,
) -> Result<Pins, MakeFault>
    ensures best { IfOk result (spec.AreBest source.now universe.now) }
    ensures fault { IfErr result (spec.TellsUnsolved source.now universe.now) }
{
    let items = all_items(alloc, source)?;
    let roots = roots_of(alloc, items.as_slice())?;
    match solve(alloc, universe, &source.cookbooks, &roots) {
        Ok(solved) => Ok(solved.chosen),
        Err(
            NoSolution::Unsolvable {
                no_cookbook,
                no_version,
            },
        ) => Err(MakeFault::Unsolvable {
            no_cookbook,
            no_version,
        }),
        Err(NoSolution::NoMemory) => Err(MakeFault::NoMemory),
    }
}

/// The items of all run lists of a source, list behind list.
fn all_items(alloc: Global, source: &PolicySource) -> Result<Items, NoMemory>
    ensures { IfOk result (λ items. items ≡ spec.all_items source.now) }
{
    let mut items = Items::new(alloc);
    add_items(alloc, &mut items, &source.run_list)?;
    add_lists(alloc, &mut items, &source.named_run_lists)?;
    Ok(items)
}

ghost use Rattle.std.specs.Prelude.{◌++◌, OnOk};
ghost use Rattle.std.specs.List.{flat_map};
ghost use Rattle.run_lists.specs.declared.by_name.NamedRunList.{NamedRunList};

fn add_lists(alloc: Global, items: &mut Items, lists: &NamedRunLists) -> Result<(), NoMemory>
    ensures { OnOk result (items.new ≡ items.old ++ flat_map (λ (named : NamedRunList). named.run_list) lists.now) }
{
    for named in lists.as_slice() {
        add_items(alloc, items, &named.run_list)?;
    }
    Ok(())
}

fn add_items(alloc: Global, items: &mut Items, more: &Items) -> Result<(), NoMemory>
    ensures { OnOk result (items.new ≡ items.old ++ more.now) }
{
    for item in more.as_slice() {
        items.push(item.copy(alloc)?)?;
    }
    Ok(())
}

/// The chosen versions, each locked under its identifier.
fn locked(
    alloc: Global,
    identifiers: &Identifiers,
    chosen: &Pins,
) -> Result<CookbookLocks, MakeFault>
    ensures locks { IfOk result (λ locks. each_of (spec.locked identifiers.now) chosen.now ≡ Some locks) }
    ensures fault { IfErr result (spec.TellsLacking identifiers.now chosen.now) }
{
    let mut locks = CookbookLocks::new(alloc);
    for pin in chosen.as_slice() {
        let Some(identifier) = identifier_for(identifiers, pin) else {
            return Err(MakeFault::NoIdentifier(pin.name.copy(alloc)?));
        };
        locks.push(lock_of(alloc, pin, identifier)?)?;
    }
    Ok(locks)
}

fn lock_of(alloc: Global, pin: &Pin, identifier: &Text) -> Result<CookbookLock, NoMemory>
    ensures { IfOk result (λ lock. lock ≡ record { name = pin.now.name; version = pin.now.version; identifier = identifier.now }) }
{
    Ok(CookbookLock {
        name: pin.name.copy(alloc)?,
        version: pin.version,
        identifier: identifier.copy(alloc)?,
    })
}

/// The lock of these cookbooks and dependencies, and else of what a source states.
fn lock_with(
    alloc: Global,
    source: &PolicySource,
    cookbook_locks: CookbookLocks,
    solution_dependencies: Fields,
) -> Result<Lock, NoMemory>
    ensures { IfOk result (spec.IsMadeWith source.now cookbook_locks solution_dependencies) }
{
    let revision_id = revision_for(alloc, source, &cookbook_locks)?;
    let whole = made_whole(
        alloc,
        &revision_id,
        source,
        &cookbook_locks,
        &solution_dependencies,
    )?;
    let own = source.copy(alloc)?;
    Ok(Lock {
        revision_id,
        name: own.name,
        run_list: own.run_list,
        named_run_lists: own.named_run_lists,
        cookbook_locks,
        default_attributes: own.default_attributes,
        override_attributes: own.override_attributes,
        solution_dependencies,
        whole,
    })
}

/// The revision of the lock of these cookbooks, and else of what a source states.
fn revision_for(
    alloc: Global,
    source: &PolicySource,
    cookbooks: &CookbookLocks,
) -> Result<Name, NoMemory>
    ensures { IfOk result (λ name. name ≡ digest_text (spec.source_lines source.now cookbooks.now)) }
{
    let lines = lines_of(
        alloc,
        &source.name,
        &source.run_list,
        &source.named_run_lists,
        cookbooks,
        &source.default_attributes,
        &source.override_attributes,
    )?;
    digest_name(alloc, &lines)
}

ghost use Rattle.policy_locks.specs.Digests.{digest_text};
ghost use Rattle.doc_tree.specs.Tree.{doc_of};
ghost use Rattle.doc_tree.specs.declared.tree.Tree.TheVariants as tree;
ghost use Rattle.cookbook_meta.specs.Stored.{with_pairs};

/// The stored object of the lock of these cookbooks and dependencies, and else of what a source states.
fn made_whole(
    alloc: Global,
    revision: &Name,
    source: &PolicySource,
    cookbooks: &CookbookLocks,
    solution: &Fields,
) -> Result<Tree, NoMemory>
    ensures { IfOk result (λ whole. whole ≡ tree.Dict (with_pairs (spec.source_fields revision.now source.now cookbooks.now solution.now) [])) }
{
    let mut made = named_fields(alloc, revision, &source.name, cookbooks)?;
    put_run_lists(alloc, &mut made, &source.run_list, &source.named_run_lists)?;
    let default = &source.default_attributes;
    let over = &source.override_attributes;
    put_dicts(alloc, &mut made, default, over, solution)?;
    Ok(Tree::Dict(made))
}

/// What is stored of the fields that tell which lock it is, and of its cookbooks.
fn named_fields(
    alloc: Global,
    revision: &Name,
    name: &Name,
    cookbooks: &CookbookLocks,
) -> Result<Fields, NoMemory>
    ensures { IfOk result (λ made. made ≡ with_pairs (spec.named_fields revision.now name.now cookbooks.now) []) }
{
    let mut made = Fields::with_capacity(alloc, 8)?;
    put_text(alloc, &mut made, "revision_id", revision.as_str())?;
    put_text(alloc, &mut made, "name", name.as_str())?;
    let locks = locks_tree(alloc, cookbooks)?;
    put_tree(alloc, &mut made, "cookbook_locks", locks)?;
    Ok(made)
}

fn locks_tree(alloc: Global, locks: &CookbookLocks) -> Result<Tree, NoMemory>
    ensures { IfOk result (λ t. doc_of t ≡ spec.locks_doc locks.now) }
{
    let mut made = Fields::with_capacity(alloc, locks.len())?;
    for lock in locks.as_slice() {
        put_lock(alloc, &mut made, lock)?;
    }
    Ok(Tree::Dict(made))
}

ghost use Rattle.doc_tree.specs.Part.{with_pair};

fn put_lock(alloc: Global, made: &mut Fields, lock: &CookbookLock) -> Result<(), NoMemory>
    ensures { OnOk result (let pair = spec.lock_pair lock.now in made.new ≡ with_pair pair.0 pair.1 made.old) }
{
    let mut parts = Fields::with_capacity(alloc, 2)?;
    put_text(alloc, &mut parts, "identifier", lock.identifier.as_str())?;
    let version = lock.version.to_string(alloc)?;
    put_text(alloc, &mut parts, "version", version.as_str())?;
    put_tree(alloc, made, lock.name.as_str(), Tree::Dict(parts))?;
    Ok(())
}
