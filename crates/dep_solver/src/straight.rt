//! The walk that takes the greatest release that fits, name by name, for as long as no choice has to be given up.
//!
//! Beside the search stand the names, the needs and the places once more, each with the key of its name, so that the texts
//! of two names are compared only where their keys are one.
ghost use Rattle.std.specs.Prelude.{◌≡◌, ◌↔◌, IfOk, IfSome, IsTrue, OnOk, MatchOption, Contains, map, length};
ghost use Rattle.dep_solver.specs.Keys.{key_of};
ghost use Rattle.dep_solver.specs.Search.{Begins, Chooses, FindsBest, Fits, IsGreatest, NoneGoesOn, pin_of, seen};
ghost use Rattle.dep_solver.specs.Straight.{AreNeeded, AreReached, IsMarked};
ghost use Rattle.dep_solver.specs.Universes.{releases_in};

use crate::candidates::{are_needs_met, are_pins_met, can_be_met, does_meet, is_need_met};
use crate::finding::{Flags, releases_in};
use crate::keys::key_of;
use crate::roots::Roots;
use crate::rules::EnvRules;
use crate::search::{Place, Search};
use crate::universe::{Release, Universe};
use doc_tree::{Name, NoMemory};
use std::alloc::Global;
use version_rules::{Need, Version};

/// A name that is reached, with its key.
#[derive(Clone, Copy)]
pub(crate) struct Reached<'a> {
    pub(crate) key: u64,
    pub(crate) name: &'a Name,
}

/// What a place needs, with the key of the needed name.
#[derive(Clone, Copy)]
pub(crate) struct Needed<'a> {
    pub(crate) key: u64,
    pub(crate) need: &'a Need,
}

/// A place, with the key of its name.
#[derive(Clone, Copy)]
pub(crate) struct Taken<'a> {
    pub(crate) key: u64,
    pub(crate) place: Place<'a>,
}

/// The search, and its names, what its places need, and its places with their keys.
#[derive(Drop)]
pub(crate) struct Straight<'a> {
    pub(crate) search: Search<'a>,
    pub(crate) reached: Vec<Reached<'a>>,
    pub(crate) needed: Vec<Needed<'a>>,
    pub(crate) taken: Vec<Taken<'a>>,
}

/// The places of the best solution's walk where no choice had to be given up.
pub(crate) fn straight_walk<'a>(
    alloc: Global,
    universe: &'a Universe,
    rules: &EnvRules,
    roots: &'a Roots,
) -> Result<Option<Vec<Place<'a>>>, NoMemory>
    ensures { IfOk result (λ found. IfSome found (λ places. FindsBest universe.now rules.now roots.now (map pin_of places.items))) }
{
    let dead = Flags::new(alloc);
    let mut walk = Straight::begin(alloc, roots)?;
    while let Some(name) = walk.search.next_name() {
        let Some(place) = walk.greatest_place(universe, rules, roots, &dead, name) else {
            return Ok(None);
        };
        walk.choose(place)?;
    }
    let Straight { search, .. } = walk;
    Ok(Some(search.places))
}

impl<'a> Straight<'a> {
    fn begin(alloc: Global, roots: &'a Roots) -> Result<Straight<'a>, NoMemory>
        ensures begins { IfOk result (λ walk. Begins roots.now walk.search) }
        ensures marked { IfOk result IsMarked }
    {
        let search = Search::begin(alloc, roots)?;
        let reached = all_reached(alloc, search.names.as_slice())?;
        Ok(Straight {
            search,
            reached,
            needed: Vec::new(alloc),
            taken: Vec::new(alloc),
        })
    }

    /// The place of a name at its greatest release that fits.
    fn greatest_place(
        &self,
        universe: &'a Universe,
        rules: &EnvRules,
        roots: &Roots,
        dead: &Flags,
        name: &'a Name,
    ) -> Option<Place<'a>>
        requires { IsMarked self.now }
        ensures { MatchOption result
            (NoneGoesOn universe.now rules.now roots.now dead.now self.now.search.places.items name.now (releases_in universe.now name.now) self.now.search.given_up)
            (IsGreatest universe.now rules.now roots.now dead.now self.now.search.places.items name.now (releases_in universe.now name.now) self.now.search.given_up (length (seen self.now.search.names.items))) }
    {
        let key = key_of(name);
        let releases = releases_in(universe, name);
        let reached = self.search.names.len();
        let mut tried = self.search.given_up;
        while tried < releases.len() {
            let release = &releases[releases.len() - 1 - tried];
            tried += 1;
            if self.fits(universe, rules, roots, dead, key, name, release) {
                return Some(Place {
                    name,
                    release,
                    tried,
                    reached,
                });
            }
        }
        None
    }

    #[allow(clippy::too_many_arguments)]
    fn fits(
        &self,
        universe: &Universe,
        rules: &EnvRules,
        roots: &Roots,
        dead: &Flags,
        key: u64,
        name: &Name,
        release: &Release,
    ) -> bool
        requires marked { IsMarked self.now }
        requires key { key ≡ key_of name.now }
        ensures { IsTrue result ↔ Fits universe.now rules.now roots.now dead.now self.now.search.places.items name.now release.now }
    {
        let version = &release.version;
        let needs = release.needs.as_slice();
        if !are_pins_met(roots.pins.as_slice(), name, version) {
            return false;
        }
        if !are_needs_met(rules.rules.as_slice(), name, version) {
            return false;
        }
        if !are_needed_met(self.needed.as_slice(), key, name, version) {
            return false;
        }
        if !are_needs_met(needs, name, version) {
            return false;
        }
        if !do_taken_meet(needs, self.taken.as_slice()) {
            return false;
        }
        can_be_met(universe, rules, roots, dead, needs)
    }

    /// Takes a place, and puts what its release needs behind the names.
    fn choose(&mut self, place: Place<'a>) -> Result<(), NoMemory>
        requires { IsMarked self.old }
        ensures chosen { OnOk result (Chooses self.old.search place.entry self.new.search) }
        ensures marked { OnOk result (IsMarked self.new) }
    {
        let needs = place.release.needs.as_slice();
        reach_needs(&mut self.search.names, &mut self.reached, needs)?;
        mark_needs(&mut self.needed, needs)?;
        self.taken.push(Taken {
            key: key_of(place.name),
            place,
        })?;
        self.search.places.push(place)?;
        self.search.given_up = 0;
        Ok(())
    }
}

fn all_reached<'a>(alloc: Global, names: &[&'a Name]) -> Result<Vec<Reached<'a>>, NoMemory>
    ensures { IfOk result (λ marks. AreReached (seen names.now) marks.items) }
{
    let mut marks = Vec::new(alloc);
    for name in names {
        marks.push(Reached {
            key: key_of(*name),
            name: *name,
        })?;
    }
    Ok(marks)
}

ghost use Rattle.dep_solver.specs.Walks.{with_name, with_needs};

/// Puts the needed names behind the names and their marks, each where it is new.
fn reach_needs<'a>(
    names: &mut Vec<&'a Name>,
    reached: &mut Vec<Reached<'a>>,
    needs: &'a [Need],
) -> Result<(), NoMemory>
    requires { AreReached (seen names.old.items) reached.old.items }
    ensures names { OnOk result (seen names.new.items ≡ with_needs (seen names.old.items) needs.now) }
    ensures reached { OnOk result (AreReached (seen names.new.items) reached.new.items) }
{
    for need in needs {
        reach_name(names, reached, &need.name)?;
    }
    Ok(())
}

fn reach_name<'a>(
    names: &mut Vec<&'a Name>,
    reached: &mut Vec<Reached<'a>>,
    name: &'a Name,
) -> Result<(), NoMemory>
    requires { AreReached (seen names.old.items) reached.old.items }
    ensures names { OnOk result (seen names.new.items ≡ with_name (seen names.old.items) name.now) }
    ensures reached { OnOk result (AreReached (seen names.new.items) reached.new.items) }
{
    let key = key_of(name);
    if !is_reached(reached.as_slice(), key, name) {
        names.push(name)?;
        reached.push(Reached { key, name })?;
    }
    Ok(())
}

ghost use Rattle.std.specs.List.{list_any};
ghost use Rattle.dep_solver.specs.Names.{same_name};

fn is_reached(marks: &[Reached<'_>], key: u64, name: &Name) -> bool
    requires marks { (mark : Reached) → Contains marks.now mark → mark.key ≡ key_of mark.name.now }
    requires key { key ≡ key_of name.now }
    ensures { result ≡ list_any (λ mark. same_name name.now mark.name.now) marks.now }
{
    for mark in marks {
        if has_name(mark, key, name) {
            return true;
        }
    }
    false
}

fn has_name(mark: &Reached<'_>, key: u64, name: &Name) -> bool
    requires mark { mark.now.key ≡ key_of mark.now.name.now }
    requires key { key ≡ key_of name.now }
    ensures { result ≡ same_name name.now mark.now.name.now }
{
    if mark.key != key {
        return false;
    }
    *name == *mark.name
}

ghost use Rattle.std.specs.Prelude.{◌++◌, List};
ghost use Rattle.version_rules.specs.declared.needs.Need.{Need};

/// Puts the needs behind the others, each with its key.
fn mark_needs<'a>(needed: &mut Vec<Needed<'a>>, needs: &'a [Need]) -> Result<(), NoMemory>
    ensures { OnOk result ((before : List Need) → AreNeeded before needed.old.items → AreNeeded (before ++ needs.now) needed.new.items) }
{
    for need in needs {
        needed.push(Needed {
            key: key_of(&need.name),
            need,
        })?;
    }
    Ok(())
}

ghost use Rattle.version_rules.specs.Meets.{Meets};
ghost use Rattle.dep_solver.specs.declared.straight.Needed.{Needed};
ghost use Rattle.dep_solver.specs.declared.straight.Reached.{Reached};
ghost use Rattle.dep_solver.specs.declared.straight.Taken.{Taken};

// The version meets each of the needs that is on the name.
fn are_needed_met(needed: &[Needed<'_>], key: u64, name: &Name, version: &Version) -> bool
    requires marks { (mark : Needed) → Contains needed.now mark → mark.key ≡ key_of mark.need.now.name }
    requires key { key ≡ key_of name.now }
    ensures { IsTrue result ↔ ((mark : Needed) → Contains needed.now mark → mark.need.now.name ≡ name.now → Meets version.now mark.need.now.constraint) }
{
    for mark in needed {
        if !is_needed_met(mark, key, name, version) {
            return false;
        }
    }
    true
}

fn is_needed_met(mark: &Needed<'_>, key: u64, name: &Name, version: &Version) -> bool
    requires mark { mark.now.key ≡ key_of mark.now.need.now.name }
    requires key { key ≡ key_of name.now }
    ensures { IsTrue result ↔ (mark.now.need.now.name ≡ name.now → Meets version.now mark.now.need.now.constraint) }
{
    if mark.key != key {
        return true;
    }
    is_need_met(mark.need, name, version)
}

// Each place whose name is needed meets the need.
fn do_taken_meet(needs: &[Need], taken: &[Taken<'_>]) -> bool
    requires { (mark : Taken) → Contains taken.now mark → mark.key ≡ key_of mark.place.name.now }
    ensures { IsTrue result ↔ ((need : Need) → Contains needs.now need → (mark : Taken) → Contains taken.now mark → mark.place.name.now ≡ need.name → Meets mark.place.release.now.version need.constraint) }
{
    for need in needs {
        if !do_meet(need, taken) {
            return false;
        }
    }
    true
}

fn do_meet(need: &Need, taken: &[Taken<'_>]) -> bool
    requires { (mark : Taken) → Contains taken.now mark → mark.key ≡ key_of mark.place.name.now }
    ensures { IsTrue result ↔ ((mark : Taken) → Contains taken.now mark → mark.place.name.now ≡ need.now.name → Meets mark.place.release.now.version need.now.constraint) }
{
    let key = key_of(&need.name);
    for mark in taken {
        if !is_met(need, key, mark) {
            return false;
        }
    }
    true
}

fn is_met(need: &Need, key: u64, mark: &Taken<'_>) -> bool
    requires mark { mark.now.key ≡ key_of mark.now.place.name.now }
    requires key { key ≡ key_of need.now.name }
    ensures { IsTrue result ↔ (mark.now.place.name.now ≡ need.now.name → Meets mark.now.place.release.now.version need.now.constraint) }
{
    if mark.key != key {
        return true;
    }
    does_meet(need, &mark.place)
}
