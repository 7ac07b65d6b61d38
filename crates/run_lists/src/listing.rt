//! What the events of a visit come to: items, recipes and roles, each once.
ghost use Rattle.std.specs.Prelude.{◌≡◌, ◌++◌, ◌∷◌, [], IfOk, OnOk, map, bytes_eq, None, if◌then◌else◌};
ghost use Rattle.std.specs.List.{filter_map, list_any};
ghost use Rattle.indexmap.specs.IndexSet.{insert_key};
ghost use Rattle.run_lists.specs.Expansions as spec;
ghost use Rattle.run_lists.specs.Expansions.{same_recipe, same_run};
ghost use Rattle.run_lists.specs.Firsts.{firsts};
ghost use Rattle.run_lists.specs.Keys.{key_of, run_of, same_key};
ghost use Rattle.run_lists.specs.Walk.{event_of};

use crate::expansion::RecipeNames;
use crate::items::Items;
use crate::keys::RunKey;
use crate::walk::{Event, Run};
use doc_tree::{Name, Names, NoMemory};
use indexmap::IndexSet;
use std::alloc::Global;

/// The roles whose visits ended, in that order.
pub(crate) fn roles_in(alloc: Global, told: &[Event<'_>]) -> Result<Names, NoMemory>
    ensures { IfOk result (λ names. names ≡ spec.roles_in (map event_of told.now)) }
{
    let mut names = Names::new(alloc);
    for event in told {
        if let Event::Leave(role) = event {
            names.push(role.copy(alloc)?)?;
        }
    }
    Ok(names)
}

/// The recipes that are to be run, in the order in which they came, repeats included.
pub(crate) fn runs_in<'a>(alloc: Global, told: &[Event<'a>]) -> Result<Vec<Run<'a>>, NoMemory>
    ensures { IfOk result (λ runs. map run_of runs.items ≡ filter_map spec.run_of (map event_of told.now)) }
{
    let mut runs = Vec::new(alloc);
    for event in told {
        if let Event::Run(run) = event {
            runs.push(*run)?;
        }
    }
    Ok(runs)
}

/// The roles that aren't there, in the order in which they were met, repeats included.
fn absent_in<'a>(alloc: Global, told: &[Event<'a>]) -> Result<Vec<&'a Name>, NoMemory>
    ensures { IfOk result (λ names. map (λ name. name.now) names.items ≡ filter_map spec.missing_of (map event_of told.now)) }
{
    let mut names = Vec::new(alloc);
    for event in told {
        if let Event::Missing(name) = event {
            names.push(*name)?;
        }
    }
    Ok(names)
}

/// The items of these recipes, one for each recipe and version, where it came first.
pub(crate) fn first_items(alloc: Global, runs: &[Run<'_>]) -> Result<Items, NoMemory>
    ensures { IfOk result (λ items. items ≡ map (λ run. run.item) (firsts same_run (map run_of runs.now))) }
{
    let mut seen = IndexSet::new(alloc);
    let mut items = Items::new(alloc);
    for run in runs {
        add_item(alloc, &mut seen, &mut items, run)?;
    }
    Ok(items)
}

fn add_item(
    alloc: Global,
    seen: &mut IndexSet<RunKey>,
    items: &mut Items,
    run: &Run<'_>,
) -> Result<(), NoMemory>
    ensures keys { OnOk result (seen.new.keys ≡ insert_key same_key seen.old.keys (key_of run.now.name.now run.now.version)) }
    ensures items { OnOk result (items.new ≡ (if list_any (same_key (key_of run.now.name.now run.now.version)) seen.old.keys then items.old else items.old ++ run.now.item.now ∷ [])) }
{
    let key = RunKey::of(alloc, run.name, run.version)?;
    if seen.insert(key)? {
        items.push(run.item.copy(alloc)?)?;
    }
    Ok(())
}

/// The names of these recipes, each where it came first.
pub(crate) fn first_recipes(alloc: Global, runs: &[Run<'_>]) -> Result<RecipeNames, NoMemory>
    ensures { IfOk result (λ names. names ≡ firsts same_recipe (map (λ run. run.name) (map run_of runs.now))) }
{
    let mut seen = IndexSet::new(alloc);
    let mut names = RecipeNames::new(alloc);
    for run in runs {
        add_recipe(alloc, &mut seen, &mut names, run)?;
    }
    Ok(names)
}

fn add_recipe(
    alloc: Global,
    seen: &mut IndexSet<RunKey>,
    names: &mut RecipeNames,
    run: &Run<'_>,
) -> Result<(), NoMemory>
    ensures keys { OnOk result (seen.new.keys ≡ insert_key same_key seen.old.keys (key_of run.now.name.now None)) }
    ensures names { OnOk result (names.new ≡ (if list_any (same_key (key_of run.now.name.now None)) seen.old.keys then names.old else names.old ++ run.now.name.now ∷ [])) }
{
    let key = RunKey::of(alloc, run.name, None)?;
    if seen.insert(key)? {
        names.push(run.name.copy(alloc)?)?;
    }
    Ok(())
}

/// The roles that aren't there, each where it was met first.
pub(crate) fn missing_in(alloc: Global, told: &[Event<'_>]) -> Result<Names, NoMemory>
    ensures { IfOk result (λ names. names ≡ spec.missing_in (map event_of told.now)) }
{
    let absent = absent_in(alloc, told)?;
    first_names(alloc, &absent)
}

fn first_names(alloc: Global, all: &[&Name]) -> Result<Names, NoMemory>
    ensures { IfOk result (λ names. names ≡ firsts bytes_eq (map (λ name. name.now) all.now)) }
{
    let mut seen = IndexSet::new(alloc);
    let mut names = Names::new(alloc);
    for name in all {
        add_name(alloc, &mut seen, &mut names, name)?;
    }
    Ok(names)
}

fn add_name(
    alloc: Global,
    seen: &mut IndexSet<Name>,
    names: &mut Names,
    name: &Name,
) -> Result<(), NoMemory>
    ensures keys { OnOk result (seen.new.keys ≡ insert_key bytes_eq seen.old.keys name.now) }
    ensures names { OnOk result (names.new ≡ (if list_any (bytes_eq name.now) seen.old.keys then names.old else names.old ++ name.now ∷ [])) }
{
    if seen.insert(name.copy(alloc)?)? {
        names.push(name.copy(alloc)?)?;
    }
    Ok(())
}
