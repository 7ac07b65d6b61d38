//! The conflicts that are known from the start: of what is asked of a cookbook alone, and of what two of them need.
ghost use Rattle.std.specs.Prelude.{◌≡◌, IfOk, IfSome, OnOk, length, slice_get, Some};
ghost use Rattle.std.specs.Int.{bit_at};
ghost use Rattle.dep_solver.specs.Search.{AreNeverChosen, Zips};
ghost use Rattle.dep_solver.specs.Conflicts.{AreConflicts, Clashes, IsAt, IsMask, IsRuledOut, MeetsAt};

use crate::candidates::fits;
use crate::conflicts::{Conflict, Term};
use crate::finding::Flags;
use crate::roots::Roots;
use crate::rules::EnvRules;
use crate::universe::{Cookbook, Release, Universe};
use crate::values::{has_value, only, release_value};
use doc_tree::{Name, NoMemory};
use std::alloc::Global;
use version_rules::{Need, meets};

/// The conflicts of the roots, of each cookbook alone, and of each two of which one needs the other.
pub(crate) fn known_conflicts(
    alloc: Global,
    universe: &Universe,
    rules: &EnvRules,
    roots: &Roots,
    dead: &Flags,
) -> Result<Vec<Conflict>, NoMemory>
    requires { AreNeverChosen universe.now rules.now roots.now dead.now }
    ensures { IfOk result (λ known. AreConflicts universe.now rules.now roots.now known.items) }
{
    let mut known = Vec::new(alloc);
    for root in roots.names.as_slice() {
        add_root(alloc, universe, rules, roots, &mut known, root)?;
    }
    for index in 0..universe.cookbooks.len() {
        let values = ruled_out(universe, rules, roots, dead, index);
        add_one(alloc, universe, rules, roots, &mut known, index, values)?;
        add_needs(alloc, universe, rules, roots, &mut known, index)?;
    }
    Ok(known)
}

/// The index of the cookbook of a name.
pub(crate) fn index_in(universe: &Universe, name: &Name) -> Option<usize>
    ensures { IfSome result (λ index. IsAt universe.now index name.now) }
{
    let cookbooks = universe.cookbooks.as_slice();
    match cookbooks.binary_search_by(|cookbook| cookbook.name.cmp(name)) {
        Ok(index) => named_at(universe, index, name),
        Err(_) => None,
    }
}

fn named_at(universe: &Universe, index: usize, name: &Name) -> Option<usize>
    ensures { IfSome result (λ index. IsAt universe.now index name.now) }
{
    let Some(cookbook) = universe.cookbooks.get(index) else {
        return None;
    };
    if cookbook.name != *name {
        return None;
    }
    Some(index)
}

// A root is chosen.
fn add_root(
    alloc: Global,
    universe: &Universe,
    _rules: &EnvRules,
    roots: &Roots,
    known: &mut Vec<Conflict>,
    root: &Name,
) -> Result<(), NoMemory>
    requires known { AreConflicts universe.now _rules.now roots.now known.old.items }
    requires root { Contains roots.now.names root.now }
    ensures { OnOk result (AreConflicts universe.now _rules.now roots.now known.new.items) }
{
    let Some(index) = index_in(universe, root) else {
        return Ok(());
    };
    let mut terms = Vec::new(alloc);
    terms.push(Term {
        cookbook: index,
        values: 1,
    })?;
    known.push(Conflict { terms })?;
    Ok(())
}

ghost use Rattle.std.specs.Prelude.{Contains};

// No solution has one of these values of a cookbook.
fn add_one(
    alloc: Global,
    _universe: &Universe,
    _rules: &EnvRules,
    _roots: &Roots,
    known: &mut Vec<Conflict>,
    cookbook: usize,
    values: u64,
) -> Result<(), NoMemory>
    requires known { AreConflicts _universe.now _rules.now _roots.now known.old.items }
    requires out { IsRuledOut _universe.now _rules.now _roots.now cookbook values }
    ensures { OnOk result (AreConflicts _universe.now _rules.now _roots.now known.new.items) }
{
    let mut terms = Vec::new(alloc);
    terms.push(Term { cookbook, values })?;
    known.push(Conflict { terms })?;
    Ok(())
}

// The values of a cookbook that go with no solution.
fn ruled_out(
    universe: &Universe,
    rules: &EnvRules,
    roots: &Roots,
    dead: &Flags,
    index: usize,
) -> u64
    requires { AreNeverChosen universe.now rules.now roots.now dead.now }
    ensures { IsRuledOut universe.now rules.now roots.now index result }
{
    let Some(cookbook) = universe.cookbooks.get(index) else {
        return 0;
    };
    !fitting(universe, rules, roots, dead, cookbook)
}

ghost use Rattle.dep_solver.specs.Conflicts.{AreFitting};

// That the cookbook isn't chosen, and its releases that go alone.
fn fitting(
    universe: &Universe,
    rules: &EnvRules,
    roots: &Roots,
    dead: &Flags,
    cookbook: &Cookbook,
) -> u64
    ensures zero { bit_at result 0 ≡ 1 }
    ensures fit { AreFitting universe.now rules.now roots.now dead.now cookbook.now result }
{
    let releases = cookbook.releases.as_slice();
    let mut values = 1;
    for index in 0..releases.len() {
        if fits(
            universe,
            rules,
            roots,
            dead,
            &[],
            &cookbook.name,
            &releases[index],
        ) {
            values |= only(release_value(releases.len(), index));
        }
    }
    values
}

// What the releases of a cookbook need of others.
fn add_needs(
    alloc: Global,
    universe: &Universe,
    rules: &EnvRules,
    roots: &Roots,
    known: &mut Vec<Conflict>,
    index: usize,
) -> Result<(), NoMemory>
    requires known { AreConflicts universe.now rules.now roots.now known.old.items }
    ensures { OnOk result (AreConflicts universe.now rules.now roots.now known.new.items) }
{
    let others = needed_by(alloc, universe, index)?;
    for other in others.as_slice() {
        add_clashes(alloc, universe, rules, roots, known, index, *other)?;
    }
    Ok(())
}

// The cookbooks that releases of a cookbook need, each once.
fn needed_by(alloc: Global, universe: &Universe, index: usize) -> Result<Vec<usize>, NoMemory> {
    let mut others = Vec::new(alloc);
    let Some(cookbook) = universe.cookbooks.get(index) else {
        return Ok(others);
    };
    for release in cookbook.releases.as_slice() {
        for need in release.needs.as_slice() {
            add_other(&mut others, universe, need, index)?;
        }
    }
    Ok(others)
}

fn add_other(
    others: &mut Vec<usize>,
    universe: &Universe,
    need: &Need,
    index: usize,
) -> Result<(), NoMemory> {
    let Some(other) = index_in(universe, &need.name) else {
        return Ok(());
    };
    if other != index && !others.iter().any(|known| *known == other) {
        others.push(other)?;
    }
    Ok(())
}

// What the releases of a cookbook need of another.
fn add_clashes(
    alloc: Global,
    universe: &Universe,
    rules: &EnvRules,
    roots: &Roots,
    known: &mut Vec<Conflict>,
    index: usize,
    other: usize,
) -> Result<(), NoMemory>
    requires known { AreConflicts universe.now rules.now roots.now known.old.items }
    ensures { OnOk result (AreConflicts universe.now rules.now roots.now known.new.items) }
{
    let Some(cookbook) = universe.cookbooks.get(index) else {
        return Ok(());
    };
    let masks = masks_of(alloc, universe, cookbook, other)?;
    let tried = told_apart(alloc, universe, masks.as_slice(), other)?;
    for values in tried.as_slice() {
        let terms = clash(alloc, masks.as_slice(), index, other, *values)?;
        known.push(Conflict { terms })?;
    }
    Ok(())
}

// No solution has a value of a cookbook that leaves none of these values of another, and one of these.
fn clash(
    alloc: Global,
    masks: &[u64],
    index: usize,
    other: usize,
    values: u64,
) -> Result<Vec<Term>, NoMemory>
    ensures { IfOk result (λ terms. AreClash masks.now index other values terms.items) }
{
    let mut terms = Vec::with_capacity(alloc, 2)?;
    terms.push(Term {
        cookbook: index,
        values: clashing(masks, values),
    })?;
    terms.push(Term {
        cookbook: other,
        values,
    })?;
    Ok(terms)
}

ghost use Rattle.dep_solver.specs.Conflicts.{AreClash};

// For each release of a cookbook, the values of another that its needs leave.
fn masks_of(
    alloc: Global,
    universe: &Universe,
    cookbook: &Cookbook,
    other: usize,
) -> Result<Vec<u64>, NoMemory>
    ensures length { IfOk result (λ masks. length masks.items ≡ length cookbook.now.releases) }
    ensures masks { IfOk result (λ masks. Zips (IsMask universe.now other) cookbook.now.releases masks.items) }
{
    let mut masks = Vec::new(alloc);
    for release in cookbook.releases.as_slice() {
        masks.push(mask_of(universe, release, other))?;
    }
    Ok(masks)
}

fn mask_of(universe: &Universe, release: &Release, other: usize) -> u64
    ensures { IsMask universe.now other release.now result }
{
    let Some(cookbook) = universe.cookbooks.get(other) else {
        return u64::MAX;
    };
    for need in release.needs.as_slice() {
        if need.name == cookbook.name {
            return met_values(cookbook, need);
        }
    }
    u64::MAX
}

// The values of a cookbook whose releases meet a need.
fn met_values(cookbook: &Cookbook, need: &Need) -> u64
    ensures { MeetsAt cookbook.now.releases need.now result }
{
    let releases = cookbook.releases.as_slice();
    let mut values = 0;
    for index in 0..releases.len() {
        if meets(&releases[index].version, &need.constraint) {
            values |= only(release_value(releases.len(), index));
        }
    }
    values
}

// The values whose releases leave none of these values.
fn clashing(masks: &[u64], values: u64) -> u64
    ensures { Clashes masks.now values result }
{
    !leaving(masks, values)
}

ghost use Rattle.dep_solver.specs.Conflicts.{Leaves};

// That the cookbook isn't chosen, and the values of releases that leave one of these values.
fn leaving(masks: &[u64], values: u64) -> u64
    ensures zero { bit_at result 0 ≡ 1 }
    ensures leaves { Leaves masks.now values result }
{
    let mut found = 1;
    for index in 0..masks.len() {
        if masks[index] & values != 0 {
            found |= only(release_value(masks.len(), index));
        }
    }
    found
}

ghost use Rattle.std.specs.Prelude.{◌≤◌};

// The sets of values by which the releases of a cookbook are told apart: what each doesn't leave, and what all those
// don't leave that don't leave a value.
fn told_apart(
    alloc: Global,
    universe: &Universe,
    masks: &[u64],
    other: usize,
) -> Result<Vec<u64>, NoMemory> {
    let mut sets = Vec::new(alloc);
    for mask in masks {
        add_set(&mut sets, !*mask)?;
    }
    let Some(cookbook) = universe.cookbooks.get(other) else {
        return Ok(sets);
    };
    for value in 0..values_count(cookbook.releases.len()) {
        add_set(&mut sets, shared(masks, clashing(masks, only(value))))?;
    }
    Ok(sets)
}

// How many values a cookbook of so many releases has.
fn values_count(count: usize) -> u32
    ensures { result ≤ 64 }
{
    if count == 0 {
        1
    } else {
        release_value(count, 0) + 1
    }
}

fn add_set(sets: &mut Vec<u64>, values: u64) -> Result<(), NoMemory> {
    if values != 0 && !sets.iter().any(|set| *set == values) {
        sets.push(values)?;
    }
    Ok(())
}

// The values that none of these releases leaves, and none where there are no such releases.
fn shared(masks: &[u64], releases: u64) -> u64 {
    let mut left = 0;
    let mut count = 0;
    for index in 0..masks.len() {
        if has_value(releases, release_value(masks.len(), index)) {
            left |= masks[index];
            count = 1;
        }
    }
    if count == 0 { 0 } else { !left }
}
