//! What a solution depends on.
ghost use Rattle.std.specs.Prelude.{◌≡◌, ◌&&◌, IfOk, OnOk, [], option_copied, string_bytes, Some, find};
ghost use Rattle.doc_tree.specs.Part.{with_pair};
ghost use Rattle.doc_tree.specs.Tree.{doc_of};
ghost use Rattle.dep_solver.specs.Universes as universes;
ghost use Rattle.policy_locks.specs.Making as spec;

use crate::put::put_tree;
use crate::source::PolicySource;
use dep_solver::{Cookbook, Pin, Pins, Release, Universe};
use doc_tree::{Fields, Name, NoMemory, Text, Tree, Trees};
use std::alloc::Global;
use version_rules::{Need, Version};

/// The dependencies of a solution: what the source asks of versions, and what each chosen version needs.
pub(crate) fn solution_of(
    alloc: Global,
    source: &PolicySource,
    universe: &Universe,
    chosen: &Pins,
) -> Result<Fields, NoMemory>
    ensures { IfOk result (λ made. made ≡ spec.solution_of source.now universe.now chosen.now) }
{
    let mut made = Fields::with_capacity(alloc, 2)?;
    let asked = needs_tree(alloc, source.cookbooks.rules.as_slice())?;
    put_tree(alloc, &mut made, "Policyfile", asked)?;
    let needed = dependencies_tree(alloc, universe, chosen)?;
    put_tree(alloc, &mut made, "dependencies", needed)?;
    Ok(made)
}

fn needs_tree(alloc: Global, needs: &[Need]) -> Result<Tree, NoMemory>
    ensures { IfOk result (λ tree. doc_of tree ≡ spec.needs_doc needs.now) }
{
    let mut trees = Trees::with_capacity(alloc, needs.len())?;
    for need in needs {
        trees.push(need_tree(alloc, need)?)?;
    }
    Ok(Tree::List(trees))
}

fn need_tree(alloc: Global, need: &Need) -> Result<Tree, NoMemory>
    ensures { IfOk result (λ tree. doc_of tree ≡ spec.need_doc need.now) }
{
    let mut trees = Trees::with_capacity(alloc, 2)?;
    trees.push(Tree::Words(need.name.as_text().copy(alloc)?))?;
    let constraint = need.constraint.to_string(alloc)?;
    trees.push(Tree::Words(Text::of(constraint)))?;
    Ok(Tree::List(trees))
}

ghost use Rattle.std.specs.Prelude.{map};
ghost use Rattle.doc_tree.specs.Doc.{dict, pairs_of};
ghost use Rattle.cookbook_meta.specs.Stored.{with_pairs};

fn dependencies_tree(alloc: Global, universe: &Universe, chosen: &Pins) -> Result<Tree, NoMemory>
    ensures { IfOk result (λ tree. doc_of tree ≡ dict (pairs_of (with_pairs (map (spec.dependency_of universe.now) chosen.now) []))) }
{
    let mut made = Fields::new(alloc);
    for pin in chosen.as_slice() {
        put_dependency(alloc, &mut made, universe, pin)?;
    }
    Ok(Tree::Dict(made))
}

fn put_dependency(
    alloc: Global,
    made: &mut Fields,
    universe: &Universe,
    pin: &Pin,
) -> Result<(), NoMemory>
    ensures { OnOk result (let pair = spec.dependency_of universe.now pin.now in made.new ≡ with_pair pair.0 pair.1 made.old) }
{
    let key = pin_text(alloc, pin)?;
    let needs = needs_in(universe, &pin.name, &pin.version);
    let tree = needs_tree(alloc, needs)?;
    put_tree(alloc, made, key.as_str(), tree)?;
    Ok(())
}

ghost use Rattle.std.specs.Prelude.{◌++◌, codes};
ghost use Rattle.version_rules.specs.Versions.{version_text};

fn pin_text(alloc: Global, pin: &Pin) -> Result<String, NoMemory>
    ensures { IfOk result (λ text. string_bytes text ≡ pin.now.name ++ codes " (" ++ version_text pin.now.version ++ codes ")") }
{
    let name = &pin.name;
    let version = pin.version;
    Ok(format!(in alloc; "{name} ({version})")?)
}

fn needs_in<'a>(universe: &'a Universe, name: &Name, version: &Version) -> &'a [Need]
    ensures { result.now ≡ universes.needs_in universe.now name.now version.now }
{
    match release_in(releases_in(universe, name), version) {
        Some(release) => release.needs.as_slice(),
        None => &[],
    }
}

fn release_in<'a>(releases: &'a [Release], version: &Version) -> Option<&'a Release>
    ensures { option_copied result ≡ find (λ r. universes.same_version r.version version.now) releases.now }
{
    releases
        .iter()
        .find(|release| is_version(&release.version, version))
}

fn is_version(one: &Version, other: &Version) -> bool
    ensures { result ≡ universes.same_version one.now other.now }
{
    one == other
}

fn releases_in<'a>(universe: &'a Universe, name: &Name) -> &'a [Release]
    ensures { result.now ≡ universes.releases_in universe.now name.now }
{
    match cookbook_in(universe, name) {
        Some(cookbook) => cookbook.releases.as_slice(),
        None => &[],
    }
}

fn cookbook_in<'a>(universe: &'a Universe, name: &Name) -> Option<&'a Cookbook>
    ensures { option_copied result ≡ universes.cookbook_in universe.now name.now }
{
    universe
        .cookbooks
        .as_slice()
        .iter()
        .find(|cookbook| is_named(*cookbook, name))
}

ghost use Rattle.dep_solver.specs.Names.{same_name};

fn is_named(cookbook: &Cookbook, name: &Name) -> bool
    ensures { result ≡ same_name cookbook.now.name name.now }
{
    cookbook.name == *name
}
