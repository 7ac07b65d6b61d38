//! Universes: the cookbooks that there are, the versions of each, and what each version needs.
ghost use Rattle.std.specs.Prelude.{map};
ghost use Rattle.std.specs.List.Sorted.{IsStrictlySortedBy};
ghost use Rattle.std.proofs.Props.{props};
ghost use Rattle.version_rules.specs.Order.{version_cmp};

use doc_tree::{Listed, Name, NoMemory};
use std::alloc::Global;
use version_rules::{Need, Needs, Version, compare};

/// A version of a cookbook, and what it needs, in the byte order of the needed names and each name once.
#[derive(Drop)]
pub struct Release {
    pub version: Version,
    pub needs: Needs,
    pub ghost in_order: { IsStrictlySortedBy text_cmp (map (λ need. need.name) needs) } by { Prim.hlevel props },
}

/// Releases, in order: contracts see the list of them.
pub type Releases = Listed<Release>;

/// A cookbook: its name, and its releases, whose versions rise.
#[derive(Drop)]
pub struct Cookbook {
    pub name: Name,
    pub releases: Releases,
    pub ghost rising: { IsStrictlySortedBy version_cmp (map (λ release. release.version) releases) } by { Prim.hlevel props },
}

/// Cookbooks, in order: contracts see the list of them.
pub type Cookbooks = Listed<Cookbook>;

/// All cookbooks that may be chosen, in the byte order of their names and each name once.
#[derive(Drop)]
pub struct Universe {
    pub cookbooks: Cookbooks,
    pub ghost in_order: { IsStrictlySortedBy text_cmp (map (λ cookbook. cookbook.name) cookbooks) } by { Prim.hlevel props },
}

impl Release {
    ghost use Rattle.std.specs.Prelude.{◌≡◌, ◌↔◌, IfOk, IfSome, IsSome};

    /// The release of a version with these needs, or `None` exactly where the needed names don't rise in byte order.
    pub fn of(version: Version, needs: Needs) -> Option<Release>
        ensures in_order { IsSome result ↔ IsStrictlySortedBy text_cmp (map (λ need. need.name) needs) }
        ensures version { IfSome result (λ release. release.version ≡ version) }
        ensures needs { IfSome result (λ release. release.needs ≡ needs) }
    {
        if do_needs_rise(needs.as_slice()) {
            Some(Release { version, needs })
        } else {
            None
        }
    }

    /// An equal release of its own.
    pub fn copy(&self, alloc: Global) -> Result<Release, NoMemory>
        ensures { IfOk result (λ release. release ≡ self.now) }
    {
        Ok(Release {
            version: self.version,
            needs: copy_needs(alloc, &self.needs)?,
        })
    }
}

impl Cookbook {
    ghost use Rattle.std.specs.Prelude.{◌≡◌, ◌↔◌, IfOk, IfSome, IsSome};

    /// The cookbook of a name with these releases, or `None` exactly where their versions don't rise.
    pub fn of(name: Name, releases: Releases) -> Option<Cookbook>
        ensures rising { IsSome result ↔ IsStrictlySortedBy version_cmp (map (λ release. release.version) releases) }
        ensures name { IfSome result (λ cookbook. cookbook.name ≡ name) }
        ensures releases { IfSome result (λ cookbook. cookbook.releases ≡ releases) }
    {
        if do_versions_rise(releases.as_slice()) {
            Some(Cookbook { name, releases })
        } else {
            None
        }
    }

    /// An equal cookbook of its own.
    pub fn copy(&self, alloc: Global) -> Result<Cookbook, NoMemory>
        ensures { IfOk result (λ cookbook. cookbook ≡ self.now) }
    {
        Ok(Cookbook {
            name: self.name.copy(alloc)?,
            releases: copy_releases(alloc, &self.releases)?,
        })
    }
}

impl Universe {
    ghost use Rattle.std.specs.Prelude.{◌≡◌, ◌↔◌, IfOk, IfSome, IsSome};

    /// The universe of these cookbooks, or `None` exactly where their names don't rise in byte order.
    pub fn of(cookbooks: Cookbooks) -> Option<Universe>
        ensures in_order { IsSome result ↔ IsStrictlySortedBy text_cmp (map (λ cookbook. cookbook.name) cookbooks) }
        ensures cookbooks { IfSome result (λ universe. universe.cookbooks ≡ cookbooks) }
    {
        if do_names_rise(cookbooks.as_slice()) {
            Some(Universe { cookbooks })
        } else {
            None
        }
    }

    /// An equal universe of its own.
    pub fn copy(&self, alloc: Global) -> Result<Universe, NoMemory>
        ensures { IfOk result (λ universe. universe ≡ self.now) }
    {
        let mut copies = Vec::with_capacity(alloc, self.cookbooks.len())?;
        for cookbook in self.cookbooks.as_slice() {
            copies.push(cookbook.copy(alloc)?)?;
        }
        Ok(Universe {
            cookbooks: Cookbooks::of(copies),
        })
    }
}

ghost use Rattle.std.specs.Prelude.{◌≡◌, ◌↔◌, IfOk, IsTrue};
ghost use Rattle.doc_tree.specs.Text.{text_cmp};

fn do_needs_rise(needs: &[Need]) -> bool
    ensures { IsTrue result ↔ IsStrictlySortedBy text_cmp (map (λ need. need.name) needs.now) }
{
    for index in 1..needs.len() {
        if needs[index - 1].name >= needs[index].name {
            return false;
        }
    }
    true
}

fn do_versions_rise(releases: &[Release]) -> bool
    ensures { IsTrue result ↔ IsStrictlySortedBy version_cmp (map (λ release. release.version) releases.now) }
{
    for index in 1..releases.len() {
        if compare(&releases[index - 1].version, &releases[index].version).is_ge() {
            return false;
        }
    }
    true
}

fn do_names_rise(cookbooks: &[Cookbook]) -> bool
    ensures { IsTrue result ↔ IsStrictlySortedBy text_cmp (map (λ cookbook. cookbook.name) cookbooks.now) }
{
    for index in 1..cookbooks.len() {
        if cookbooks[index - 1].name >= cookbooks[index].name {
            return false;
        }
    }
    true
}

/// Equal needs of their own.
pub(crate) fn copy_needs(alloc: Global, needs: &Needs) -> Result<Needs, NoMemory>
    ensures { IfOk result (λ copies. copies ≡ needs.now) }
{
    let mut copies = Vec::with_capacity(alloc, needs.len())?;
    for need in needs.as_slice() {
        copies.push(need.copy(alloc)?)?;
    }
    Ok(Needs::of(copies))
}

fn copy_releases(alloc: Global, releases: &Releases) -> Result<Releases, NoMemory>
    ensures { IfOk result (λ copies. copies ≡ releases.now) }
{
    let mut copies = Vec::with_capacity(alloc, releases.len())?;
    for release in releases.as_slice() {
        copies.push(release.copy(alloc)?)?;
    }
    Ok(Releases::of(copies))
}
