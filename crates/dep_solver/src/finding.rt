//! Looking up the releases of a name.
ghost use Rattle.std.specs.Prelude.{◌≡◌, option_copied};
ghost use Rattle.dep_solver.specs.Universes.{cookbook_in, releases_in};

use crate::universe::{Cookbook, Release, Universe};
use doc_tree::{Listed, Name};

/// The cookbook of a name, where the universe has it.
pub(crate) fn cookbook_in<'a>(universe: &'a Universe, name: &Name) -> Option<&'a Cookbook>
    ensures { option_copied result ≡ cookbook_in universe.now name.now }
{
    let cookbooks = universe.cookbooks.as_slice();
    match cookbooks.binary_search_by(|cookbook| cookbook.name.cmp(name)) {
        Ok(index) => Some(&cookbooks[index]),
        Err(_) => None,
    }
}

/// The releases of a name, least first, and none where the universe lacks it.
pub(crate) fn releases_in<'a>(universe: &'a Universe, name: &Name) -> &'a [Release]
    ensures { result.now ≡ releases_in universe.now name.now }
{
    match cookbook_in(universe, name) {
        Some(cookbook) => cookbook.releases.as_slice(),
        None => &[],
    }
}

ghost use Rattle.dep_solver.specs.Search.{flags_of, is_set};

/// Flags of releases, cookbook by cookbook and release by release in the order of the universe.
pub(crate) type Flags = Listed<Listed<bool>>;

/// The flags of the releases of a name, and none where there are no flags for it.
pub(crate) fn flags_in<'a>(universe: &Universe, flags: &'a Flags, name: &Name) -> &'a [bool]
    ensures { result.now ≡ flags_of universe.now.cookbooks flags.now name.now }
{
    let cookbooks = universe.cookbooks.as_slice();
    match cookbooks.binary_search_by(|cookbook| cookbook.name.cmp(name)) {
        Ok(index) => list_at(flags, index),
        Err(_) => &[],
    }
}

ghost use Rattle.std.specs.Prelude.{[], false, slice_get, unwrap_or};

fn list_at(flags: &Flags, index: usize) -> &[bool]
    ensures { result.now ≡ unwrap_or (slice_get flags.now index) [] }
{
    match flags.get(index) {
        Some(list) => list.as_slice(),
        None => &[],
    }
}

/// Whether the flag at an index is set.
pub(crate) fn is_set(flags: &[bool], index: usize) -> bool
    ensures { result ≡ is_set flags.now index }
{
    flags.get(index).copied().unwrap_or(false)
}
