//! What a refusal tells: which roots the universe lacks, and which have no version that can be chosen.
ghost use Rattle.std.specs.Prelude.{◌↔◌, IfOk, IsTrue};
ghost use Rattle.dep_solver.specs.Refusals.{AreThose, HasNoVersion, IsLacking, Refuses, Tells};
ghost use Rattle.dep_solver.specs.Solutions.{Choice, IsSolution};

use crate::candidates::has_allowed;
use crate::finding::cookbook_in;
use crate::no_solution::NoSolution;
use crate::roots::Roots;
use crate::rules::EnvRules;
use crate::universe::Universe;
use doc_tree::{Name, Names, NoMemory};
use std::alloc::Global;

/// The refusal of roots that have no solution.
pub(crate) fn unsolvable(
    alloc: Global,
    universe: &Universe,
    rules: &EnvRules,
    roots: &Roots,
) -> Result<NoSolution, NoMemory>
    requires { (choice : Choice) → ¬ (IsSolution universe.now rules.now roots.now choice) }
    ensures tells { IfOk result (Tells universe.now rules.now roots.now) }
    ensures refuses { IfOk result (Refuses universe.now rules.now roots.now) }
{
    let no_cookbook = lacking(alloc, universe, roots)?;
    let no_version = without_version(alloc, universe, rules, roots)?;
    Ok(NoSolution::Unsolvable {
        no_cookbook,
        no_version,
    })
}

fn lacking(alloc: Global, universe: &Universe, roots: &Roots) -> Result<Names, NoMemory>
    ensures { IfOk result (AreThose (IsLacking universe.now) roots.now.names) }
{
    let mut names = Vec::new(alloc);
    for name in roots.names.as_slice() {
        if is_lacking(universe, name) {
            names.push(name.copy(alloc)?)?;
        }
    }
    names.sort_unstable();
    names.dedup();
    Ok(Names::of(names))
}

fn is_lacking(universe: &Universe, name: &Name) -> bool
    ensures { IsTrue result ↔ IsLacking universe.now name.now }
{
    cookbook_in(universe, name).is_none()
}

fn without_version(
    alloc: Global,
    universe: &Universe,
    rules: &EnvRules,
    roots: &Roots,
) -> Result<Names, NoMemory>
    ensures { IfOk result (AreThose (HasNoVersion universe.now rules.now roots.now) roots.now.names) }
{
    let mut names = Vec::new(alloc);
    for name in roots.names.as_slice() {
        if has_no_version(universe, rules, roots, name) {
            names.push(name.copy(alloc)?)?;
        }
    }
    names.sort_unstable();
    names.dedup();
    Ok(Names::of(names))
}

fn has_no_version(universe: &Universe, rules: &EnvRules, roots: &Roots, name: &Name) -> bool
    ensures { IsTrue result ↔ HasNoVersion universe.now rules.now roots.now name.now }
{
    if is_lacking(universe, name) {
        return false;
    }
    !has_allowed(universe, rules, roots, name)
}
