//! The universe of stored versions: what the solver sees of them.
ghost use Rattle.std.specs.Prelude.{◌≡◌, IfOk, OnOk, map};
ghost use Rattle.shelves.specs.Shelves.{shelves_of};
ghost use Rattle.shelves.specs.SortedMap.{map_of};
ghost use Rattle.version_rules.specs.Order.{version_cmp};
ghost use Rattle.org_shelves.specs.Universes as spec;

use crate::editions::Edition;
use dep_solver::{Cookbook, Cookbooks, Release, Releases, Universe};
use doc_tree::{Name, NoMemory};
use shelves::{Shelves, SortedMap};
use std::alloc::Global;
use version_rules::Version;

/// What the solver sees of all stored versions: each cookbook that has a Name, with its versions and what each needs.
/// No manifest is read anew, and all that is given is a copy. Want of memory is the one refusal.
pub fn universe_of(alloc: Global, stored: &Shelves<Version, Edition>) -> Result<Universe, NoMemory>
    ensures { IfOk result (λ universe. universe ≡ spec.universe_of (shelves_of version_cmp stored.now)) }
{
    let mut cookbooks = Vec::with_capacity(alloc, stored.shelves().len())?;
    for (name, shelf) in stored.shelves() {
        match Name::of(name.copy(alloc)?) {
            Ok(name) => cookbooks.push(cookbook_of(alloc, name, shelf)?)?,
            Err(_) => {}
        }
    }
    let cookbooks = Cookbooks::of(cookbooks);
    Ok(Universe { cookbooks })
}

fn cookbook_of(
    alloc: Global,
    name: Name,
    shelf: &SortedMap<Version, Edition>,
) -> Result<Cookbook, NoMemory>
    ensures { IfOk result (λ cookbook. cookbook ≡ spec.cookbook_of (name, map_of version_cmp shelf.now)) }
{
    let releases = releases_of(alloc, shelf.entries())?;
    Ok(Cookbook { name, releases })
}

fn releases_of(alloc: Global, entries: &[(Version, Edition)]) -> Result<Releases, NoMemory>
    ensures { IfOk result (λ releases. releases ≡ map spec.release_of entries.now) }
{
    let mut releases = Vec::with_capacity(alloc, entries.len())?;
    for (version, edition) in entries {
        releases.push(release_of(alloc, *version, edition)?)?;
    }
    Ok(Releases::of(releases))
}

fn release_of(alloc: Global, version: Version, edition: &Edition) -> Result<Release, NoMemory>
    ensures { IfOk result (λ release. release ≡ spec.release_of (version, edition.now)) }
{
    let release = edition.release(alloc, version)?;
    Ok(release)
}
