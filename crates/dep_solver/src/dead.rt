//! Which releases are in no solution: those of which a need has no version that can be chosen.
ghost use Rattle.std.specs.Prelude.{IfOk};
ghost use Rattle.dep_solver.specs.Search.{AreFlagsOf, AreNeverChosen, Zips};

use crate::candidates::can_be_met;
use crate::finding::Flags;
use crate::roots::Roots;
use crate::rules::EnvRules;
use crate::universe::{Cookbook, Universe};
use doc_tree::{Listed, NoMemory};
use std::alloc::Global;

/// Flags of releases that are in no solution: first of those that need what isn't there, then of those that need these,
/// and so on until no more are found.
pub(crate) fn never_chosen(
    alloc: Global,
    universe: &Universe,
    rules: &EnvRules,
    roots: &Roots,
) -> Result<Flags, NoMemory>
    ensures { IfOk result (AreNeverChosen universe.now rules.now roots.now) }
{
    let mut dead = Flags::new(alloc);
    let mut count = 0;
    for _ in 0..universe.cookbooks.len() {
        dead = next_flags(alloc, universe, rules, roots, &dead)?;
        let found = count_of(&dead);
        if found == count {
            return Ok(dead);
        }
        count = found;
    }
    Ok(dead)
}

/// The flags of the releases of which a need has no version but flagged ones.
fn next_flags(
    alloc: Global,
    universe: &Universe,
    rules: &EnvRules,
    roots: &Roots,
    dead: &Flags,
) -> Result<Flags, NoMemory>
    ensures { IfOk result (Zips (AreFlagsOf universe.now rules.now roots.now dead.now) universe.now.cookbooks) }
{
    let mut flags = Flags::new(alloc);
    for cookbook in universe.cookbooks.as_slice() {
        flags.push(cookbook_flags(alloc, universe, rules, roots, dead, cookbook)?)?;
    }
    Ok(flags)
}

fn cookbook_flags(
    alloc: Global,
    universe: &Universe,
    rules: &EnvRules,
    roots: &Roots,
    dead: &Flags,
    cookbook: &Cookbook,
) -> Result<Listed<bool>, NoMemory>
    ensures { IfOk result (AreFlagsOf universe.now rules.now roots.now dead.now cookbook.now) }
{
    let mut flags = Listed::new(alloc);
    for release in cookbook.releases.as_slice() {
        flags.push(!can_be_met(universe, rules, roots, dead, release.needs.as_slice()))?;
    }
    Ok(flags)
}

fn count_of(flags: &Flags) -> usize {
    let mut count: usize = 0;
    for list in flags.as_slice() {
        count = count.saturating_add(list.as_slice().iter().filter(|flag| **flag).count());
    }
    count
}
