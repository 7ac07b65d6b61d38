//! What the search learns: cookbooks with some of their values, of which no solution has all.
ghost use Rattle.std.specs.Prelude.{◌≡◌, ◌<◌, IfOk, IsTrue, OnOk, Contains};
ghost use Rattle.dep_solver.specs.Conflicts.{AddsOthers, Adds, AllowsEach, PlacesHave, PlacesHaveAll, Resolves};

use crate::search::Place;
use crate::universe::Universe;
use crate::values::{has_value, value_of};
use doc_tree::NoMemory;
use std::alloc::Global;

/// A cookbook, by its index in the universe, and some of its values.
#[derive(Clone, Copy)]
pub(crate) struct Term {
    pub(crate) cookbook: usize,
    pub(crate) values: u64,
}

/// Terms of which no solution has all.
#[derive(Drop)]
pub(crate) struct Conflict {
    pub(crate) terms: Vec<Term>,
}

/// What follows of two conflicts: whatever value of the cookbook is taken, one of them has all its terms.
pub(crate) fn resolved(
    alloc: Global,
    one: &[Term],
    other: &[Term],
    cookbook: usize,
) -> Result<Vec<Term>, NoMemory>
    ensures { IfOk result (λ terms. Resolves one.now other.now terms.items) }
{
    let mut terms = Vec::new(alloc);
    copy_others(&mut terms, one, cookbook)?;
    add_others(&mut terms, other, cookbook)?;
    let values = values_of(one, cookbook) | values_of(other, cookbook);
    if values != u64::MAX {
        terms.push(Term { cookbook, values })?;
    }
    Ok(terms)
}

// The values of a cookbook that each of its terms has.
fn values_of(terms: &[Term], cookbook: usize) -> u64
    ensures { AllowsEach terms.now cookbook result }
{
    let mut values = u64::MAX;
    for term in terms {
        if term.cookbook == cookbook {
            values &= term.values;
        }
    }
    values
}

// Puts the terms on other cookbooks behind the terms.
fn copy_others(terms: &mut Vec<Term>, others: &[Term], cookbook: usize) -> Result<(), NoMemory>
    ensures { OnOk result (AddsOthers others.now cookbook terms.old.items terms.new.items) }
{
    for other in others {
        if other.cookbook != cookbook {
            terms.push(*other)?;
        }
    }
    Ok(())
}

// Adds the terms on other cookbooks, each to the one on its cookbook where there is one.
fn add_others(terms: &mut Vec<Term>, others: &[Term], cookbook: usize) -> Result<(), NoMemory>
    ensures { OnOk result (AddsOthers others.now cookbook terms.old.items terms.new.items) }
{
    for other in others {
        if other.cookbook != cookbook {
            add_term(terms, *other)?;
        }
    }
    Ok(())
}

// Adds a term, and narrows the one on its cookbook where there is one.
fn add_term(terms: &mut Vec<Term>, term: Term) -> Result<(), NoMemory>
    ensures { OnOk result (Adds terms.old.items term terms.new.items) }
{
    for index in 0..terms.len() {
        if terms[index].cookbook == term.cookbook {
            terms[index].values &= term.values;
            return Ok(());
        }
    }
    terms.push(term)?;
    Ok(())
}

/// Whether the places have all of the terms.
pub(crate) fn have_all(universe: &Universe, places: &[Place<'_>], terms: &[Term]) -> bool
    ensures { IsTrue result → PlacesHaveAll universe.now places.now terms.now }
{
    for term in terms {
        if !have_one(universe, places, term) {
            return false;
        }
    }
    true
}

fn have_one(universe: &Universe, places: &[Place<'_>], term: &Term) -> bool
    ensures { IsTrue result → PlacesHave universe.now places.now term.now }
{
    for place in places {
        if does_have(universe, place, term) {
            return true;
        }
    }
    false
}

ghost use Rattle.dep_solver.specs.Conflicts.{PlaceHas};

fn does_have(universe: &Universe, place: &Place<'_>, term: &Term) -> bool
    ensures { IsTrue result → PlaceHas universe.now place.now term.now }
{
    let Some(cookbook) = universe.cookbooks.get(term.cookbook) else {
        return false;
    };
    if cookbook.name != *place.name {
        return false;
    }
    let value = value_of(cookbook.releases.as_slice(), &place.release.version);
    has_value(term.values, value)
}
