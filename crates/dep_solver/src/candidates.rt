//! Which release of a name goes with the places that were chosen.
ghost use Rattle.std.specs.Prelude.{◌≡◌, ◌↔◌, IsTrue, Contains};
ghost use Rattle.dep_solver.specs.Search.{CanMeet, Fits};
ghost use Rattle.version_rules.specs.Meets.{Meets};
ghost use Rattle.version_rules.specs.declared.needs.Need.{Need};
ghost use Rattle.dep_solver.specs.declared.roots.Pin.{Pin};
ghost use Rattle.dep_solver.specs.declared.search.Place.{Place};

use crate::finding::{Flags, flags_in, is_set, releases_in};
use crate::roots::{Pin, Roots};
use crate::rules::EnvRules;
use crate::search::Place;
use crate::universe::{Release, Universe};
use doc_tree::Name;
use version_rules::{Need, Version, meets};

pub(crate) fn fits(
    universe: &Universe,
    rules: &EnvRules,
    roots: &Roots,
    dead: &Flags,
    places: &[Place<'_>],
    name: &Name,
    release: &Release,
) -> bool
    ensures { IsTrue result ↔ Fits universe.now rules.now roots.now dead.now places.now name.now release.now }
{
    let version = &release.version;
    let needs = release.needs.as_slice();
    if !are_pins_met(roots.pins.as_slice(), name, version) {
        return false;
    }
    if !are_needs_met(rules.rules.as_slice(), name, version) {
        return false;
    }
    if !are_places_met(places, name, version) {
        return false;
    }
    if !are_needs_met(needs, name, version) {
        return false;
    }
    if !do_places_meet(needs, places) {
        return false;
    }
    can_be_met(universe, rules, roots, dead, needs)
}

// The version is the one of each pin on the name.
pub(crate) fn are_pins_met(pins: &[Pin], name: &Name, version: &Version) -> bool
    ensures { IsTrue result ↔ ((pin : Pin) → Contains pins.now pin → pin.name ≡ name.now → version.now ≡ pin.version) }
{
    for pin in pins {
        if !is_pin_met(pin, name, version) {
            return false;
        }
    }
    true
}

fn is_pin_met(pin: &Pin, name: &Name, version: &Version) -> bool
    ensures { IsTrue result ↔ (pin.now.name ≡ name.now → version.now ≡ pin.now.version) }
{
    pin.name != *name || *version == pin.version
}

// The version meets each of the needs that is on the name.
pub(crate) fn are_needs_met(needs: &[Need], name: &Name, version: &Version) -> bool
    ensures { IsTrue result ↔ ((need : Need) → Contains needs.now need → need.name ≡ name.now → Meets version.now need.constraint) }
{
    for need in needs {
        if !is_need_met(need, name, version) {
            return false;
        }
    }
    true
}

pub(crate) fn is_need_met(need: &Need, name: &Name, version: &Version) -> bool
    ensures { IsTrue result ↔ (need.now.name ≡ name.now → Meets version.now need.now.constraint) }
{
    meets(version, &need.constraint) || need.name != *name
}

// The version meets what each place needs of the name.
fn are_places_met(places: &[Place<'_>], name: &Name, version: &Version) -> bool
    ensures { IsTrue result ↔ ((place : Place) → Contains places.now place → (need : Need) → Contains place.release.now.needs need → need.name ≡ name.now → Meets version.now need.constraint) }
{
    for place in places {
        if !are_needs_met(place.release.needs.as_slice(), name, version) {
            return false;
        }
    }
    true
}

// Each place whose name is needed meets the need.
fn do_places_meet(needs: &[Need], places: &[Place<'_>]) -> bool
    ensures { IsTrue result ↔ ((need : Need) → Contains needs.now need → (place : Place) → Contains places.now place → place.name.now ≡ need.name → Meets place.release.now.version need.constraint) }
{
    for need in needs {
        if !do_meet(need, places) {
            return false;
        }
    }
    true
}

pub(crate) fn do_meet(need: &Need, places: &[Place<'_>]) -> bool
    ensures { IsTrue result ↔ ((place : Place) → Contains places.now place → place.name.now ≡ need.now.name → Meets place.release.now.version need.now.constraint) }
{
    for place in places {
        if !does_meet(need, place) {
            return false;
        }
    }
    true
}

pub(crate) fn does_meet(need: &Need, place: &Place<'_>) -> bool
    ensures { IsTrue result ↔ (place.now.name.now ≡ need.now.name → Meets place.now.release.now.version need.now.constraint) }
{
    meets(&place.release.version, &need.constraint) || *place.name != need.name
}

/// Whether each need has a version that can be chosen and isn't flagged.
pub(crate) fn can_be_met(
    universe: &Universe,
    rules: &EnvRules,
    roots: &Roots,
    dead: &Flags,
    needs: &[Need],
) -> bool
    ensures { IsTrue result ↔ ((need : Need) → Contains needs.now need → CanMeet universe.now rules.now roots.now dead.now need) }
{
    for need in needs {
        if !has_version(universe, rules, roots, dead, need) {
            return false;
        }
    }
    true
}

fn has_version(
    universe: &Universe,
    rules: &EnvRules,
    roots: &Roots,
    dead: &Flags,
    need: &Need,
) -> bool
    ensures { IsTrue result ↔ CanMeet universe.now rules.now roots.now dead.now need.now }
{
    let releases = releases_in(universe, &need.name);
    let flags = flags_in(universe, dead, &need.name);
    for (index, release) in releases.iter().enumerate() {
        if is_open(rules, roots, need, flags, index, &release.version) {
            return true;
        }
    }
    false
}

ghost use Rattle.dep_solver.specs.Search.{is_set};
ghost use Rattle.std.specs.Prelude.{false};

fn is_open(
    rules: &EnvRules,
    roots: &Roots,
    need: &Need,
    flags: &[bool],
    index: usize,
    version: &Version,
) -> bool
    ensures { IsTrue result ↔ ((is_set flags.now index ≡ false) × IsChoosable rules.now roots.now need.now version.now) }
{
    if is_set(flags, index) {
        return false;
    }
    is_choosable(rules, roots, need, version)
}

ghost use Rattle.dep_solver.specs.Search.{IsChoosable};

fn is_choosable(rules: &EnvRules, roots: &Roots, need: &Need, version: &Version) -> bool
    ensures { IsTrue result ↔ IsChoosable rules.now roots.now need.now version.now }
{
    if !meets(version, &need.constraint) {
        return false;
    }
    is_allowed(rules, roots, &need.name, version)
}

/// Whether a version of a name is released, meets the pins and meets the rules.
pub(crate) fn has_allowed(universe: &Universe, rules: &EnvRules, roots: &Roots, name: &Name) -> bool
    ensures { IsTrue result ↔ ((version : Version) × IsAllowed universe.now rules.now roots.now name.now version) }
{
    let releases = releases_in(universe, name);
    for release in releases {
        if is_allowed(rules, roots, name, &release.version) {
            return true;
        }
    }
    false
}

ghost use Rattle.dep_solver.specs.Search.{MeetsAll};
ghost use Rattle.dep_solver.specs.Solutions.{IsAllowed};
ghost use Rattle.version_rules.specs.declared.versions.Version.{Version};

fn is_allowed(rules: &EnvRules, roots: &Roots, name: &Name, version: &Version) -> bool
    ensures { IsTrue result ↔ MeetsAll rules.now roots.now name.now version.now }
{
    if !are_pins_met(roots.pins.as_slice(), name, version) {
        return false;
    }
    are_needs_met(rules.rules.as_slice(), name, version)
}
