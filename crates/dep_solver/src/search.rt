//! The search for the best solution: versions are tried greatest first, name by name in the order of the walk.
ghost use Rattle.std.specs.Prelude.{◌≡◌, IfOk};
ghost use Rattle.dep_solver.specs.Search.{Finds};

use crate::candidates::fits;
use crate::clashes::index_in;
use crate::conflicts::{Term, have_all};
use crate::dead::never_chosen;
use crate::finding::{Flags, releases_in};
use crate::learning::Learner;
use crate::roots::Roots;
use crate::rules::EnvRules;
use crate::straight::straight_walk;
use crate::universe::{Release, Universe};
use crate::values::{only, value_of};
use doc_tree::{Name, NoMemory};
use std::alloc::Global;
use version_rules::Need;

/// A place of the walk: the name, the release that was chosen, how many of the greatest releases were tried, this one
/// included, and how many names were reached before it.
#[derive(Clone, Copy)]
pub(crate) struct Place<'a> {
    pub(crate) name: &'a Name,
    pub(crate) release: &'a Release,
    pub(crate) tried: usize,
    pub(crate) reached: usize,
}

/// What the search has done: the names that are reached, in the order of the walk, the places of those that have a
/// version, and how many of the greatest releases of the next name were given up.
#[derive(Drop)]
pub(crate) struct Search<'a> {
    pub(crate) names: Vec<&'a Name>,
    pub(crate) places: Vec<Place<'a>>,
    pub(crate) given_up: usize,
}

ghost use Rattle.std.specs.Prelude.{OnOk, Some, None, slice_get, length, option_map, MatchOption, MatchBool, []};
ghost use Rattle.dep_solver.specs.Search.{AreNeverChosen, Begins, Chooses, Fits, GivesUp, GoesOn, IsGreatest, NoneGoesOn, seen};
ghost use Rattle.dep_solver.specs.Universes.{releases_in};
ghost use Rattle.dep_solver.specs.Conflicts.{KeepsConflicts};

/// The places of the best solution's walk, or `None` exactly where there is no solution.
///
/// Where the greatest releases go together, they are taken one after the other. Else it is found out first which releases
/// are in no solution since what they need isn't there.
pub(crate) fn best_places<'a>(
    alloc: Global,
    universe: &'a Universe,
    rules: &EnvRules,
    roots: &'a Roots,
) -> Result<Option<Vec<Place<'a>>>, NoMemory>
    ensures { IfOk result (Finds universe.now rules.now roots.now) }
{
    if let Some(places) = straight_walk(alloc, universe, rules, roots)? {
        return Ok(Some(places));
    }
    let dead = never_chosen(alloc, universe, rules, roots)?;
    searched(alloc, universe, rules, roots, &dead)
}

/// The places of the best solution's walk, or `None` exactly where there is no solution, found without the releases that
/// are flagged, which no solution has.
fn searched<'a>(
    alloc: Global,
    universe: &'a Universe,
    rules: &EnvRules,
    roots: &'a Roots,
    dead: &Flags,
) -> Result<Option<Vec<Place<'a>>>, NoMemory>
    requires { AreNeverChosen universe.now rules.now roots.now dead.now }
    ensures { IfOk result (Finds universe.now rules.now roots.now) }
{
    let mut search = Search::begin(alloc, roots)?;
    let mut learner = Learner::begin(alloc, universe, rules, roots, dead)?;
    while let Some(name) = search.next_name() {
        let next = search.next_place(alloc, universe, rules, roots, dead, &mut learner, name)?;
        if let Some(place) = next {
            search.choose(place)?;
        } else if !search.give_up() {
            return Ok(None);
        }
    }
    Ok(Some(search.places))
}

impl<'a> Search<'a> {
    pub(crate) fn begin(alloc: Global, roots: &'a Roots) -> Result<Search<'a>, NoMemory>
        ensures { IfOk result (Begins roots.now) }
    {
        Ok(Search {
            names: root_names(alloc, roots)?,
            places: Vec::new(alloc),
            given_up: 0,
        })
    }

    /// The first name that has no version yet.
    pub(crate) fn next_name(&self) -> Option<&'a Name>
        ensures { option_map (λ name. name.now) result ≡ slice_get (seen self.now.names.items) (length self.now.places.items) }
    {
        self.names.get(self.places.len()).copied()
    }

    /// The place of a name at its greatest release that goes on and wasn't given up.
    #[allow(clippy::too_many_arguments)]
    fn next_place(
        &self,
        alloc: Global,
        universe: &'a Universe,
        rules: &EnvRules,
        roots: &Roots,
        dead: &Flags,
        learner: &mut Learner,
        name: &'a Name,
    ) -> Result<Option<Place<'a>>, NoMemory>
        requires { KeepsConflicts universe.now rules.now roots.now learner.old.store }
        ensures keeps { OnOk result (KeepsConflicts universe.now rules.now roots.now learner.new.store) }
        ensures place { IfOk result (λ found. MatchOption found
            (NoneGoesOn universe.now rules.now roots.now dead.now self.now.places.items name.now (releases_in universe.now name.now) self.now.given_up)
            (IsGreatest universe.now rules.now roots.now dead.now self.now.places.items name.now (releases_in universe.now name.now) self.now.given_up (length (seen self.now.names.items)))) }
    {
        let releases = releases_in(universe, name);
        let reached = self.names.len();
        let mut tried = self.given_up;
        while tried < releases.len() {
            let release = &releases[releases.len() - 1 - tried];
            tried += 1;
            let place = Place {
                name,
                release,
                tried,
                reached,
            };
            if self.goes_on(alloc, universe, rules, roots, dead, learner, place)? {
                return Ok(Some(place));
            }
        }
        Ok(None)
    }

    /// Whether a place goes with the places, and no conflict is found that all of them have.
    #[allow(clippy::too_many_arguments)]
    fn goes_on(
        &self,
        alloc: Global,
        universe: &'a Universe,
        rules: &EnvRules,
        roots: &Roots,
        dead: &Flags,
        learner: &mut Learner,
        place: Place<'a>,
    ) -> Result<bool, NoMemory>
        requires { KeepsConflicts universe.now rules.now roots.now learner.old.store }
        ensures keeps { OnOk result (KeepsConflicts universe.now rules.now roots.now learner.new.store) }
        ensures goes { IfOk result (λ goes. MatchBool goes
            (Fits universe.now rules.now roots.now dead.now self.now.places.items place.entry.name.now place.entry.release.now)
            (¬ (GoesOn universe.now rules.now roots.now dead.now self.now.places.items place.entry.name.now place.entry.release.now))) }
    {
        let places = self.places.as_slice();
        if !fits(
            universe,
            rules,
            roots,
            dead,
            places,
            place.name,
            place.release,
        ) {
            return Ok(false);
        }
        if learner.has_witness(&term_of(universe, &place)) {
            return Ok(true);
        }
        let mut all = Vec::from_slice(alloc, places)?;
        all.push(place)?;
        let assumed = terms_of(alloc, universe, all.as_slice())?;
        match learner.refuted(alloc, assumed.as_slice())? {
            Some(conflict) => Ok(!have_all(universe, all.as_slice(), conflict.terms.as_slice())),
            None => Ok(true),
        }
    }

    /// Takes a place, and puts what its release needs behind the names.
    fn choose(&mut self, place: Place<'a>) -> Result<(), NoMemory>
        ensures { OnOk result (Chooses self.old place.entry self.new) }
    {
        add_needs(&mut self.names, place.release.needs.as_slice())?;
        self.places.push(place)?;
        self.given_up = 0;
        Ok(())
    }

    /// Gives up the release of the last place, and is false where there is no place.
    fn give_up(&mut self) -> bool
        ensures { MatchBool result (GivesUp self.old self.new) (self.old.places.items ≡ []) }
    {
        let Some(last) = self.places.pop() else {
            return false;
        };
        self.names.truncate(last.reached);
        self.given_up = last.tried;
        true
    }
}

fn root_names<'a>(alloc: Global, roots: &'a Roots) -> Result<Vec<&'a Name>, NoMemory>
    ensures { IfOk result (λ names. seen names.items ≡ roots.now.names) }
{
    let mut names = Vec::new(alloc);
    for name in roots.names.as_slice() {
        names.push(name)?;
    }
    Ok(names)
}

ghost use Rattle.dep_solver.specs.Walks.{with_name, with_needs};

/// Puts the needed names behind the names, each where it is new.
fn add_needs<'a>(names: &mut Vec<&'a Name>, needs: &'a [Need]) -> Result<(), NoMemory>
    ensures { OnOk result (seen names.new.items ≡ with_needs (seen names.old.items) needs.now) }
{
    for need in needs {
        add_name(names, &need.name)?;
    }
    Ok(())
}

fn add_name<'a>(names: &mut Vec<&'a Name>, name: &'a Name) -> Result<(), NoMemory>
    ensures { OnOk result (seen names.new.items ≡ with_name (seen names.old.items) name.now) }
{
    if !is_among(names, name) {
        names.push(name)?;
    }
    Ok(())
}

ghost use Rattle.std.specs.List.{list_any};
ghost use Rattle.dep_solver.specs.Names.{same_name};

fn is_among(names: &[&Name], name: &Name) -> bool
    ensures { result ≡ list_any (λ other. same_name name.now other.now) names.now }
{
    names.iter().any(|other| *name == **other)
}

// The places as terms.
fn terms_of(
    alloc: Global,
    universe: &Universe,
    places: &[Place<'_>],
) -> Result<Vec<Term>, NoMemory> {
    let mut terms = Vec::with_capacity(alloc, places.len())?;
    for place in places {
        terms.push(term_of(universe, place))?;
    }
    Ok(terms)
}

fn term_of(universe: &Universe, place: &Place<'_>) -> Term {
    let cookbook = index_in(universe, place.name).unwrap_or(universe.cookbooks.len());
    let releases = releases_in(universe, place.name);
    Term {
        cookbook,
        values: only(value_of(releases, &place.release.version)),
    }
}
