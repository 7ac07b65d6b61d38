//! Learning from what clashes: whether the versions of some cookbooks are in no solution together, and why.
ghost use Rattle.std.specs.Prelude.{IfOk, IfSome, OnOk};
ghost use Rattle.dep_solver.specs.Search.{AreNeverChosen};
ghost use Rattle.dep_solver.specs.Conflicts.{Grows, KeepsConflicts};

use crate::conflicts::{Conflict, Term, resolved};
use crate::finding::Flags;
use crate::roots::Roots;
use crate::rules::EnvRules;
use crate::store::{Kept, MOST, Store};
use crate::trail::{Event, Reason, Trail};
use crate::universe::Universe;
use crate::values::only;
use doc_tree::NoMemory;
use std::alloc::Global;

/// The conflicts that are kept, and what follows of them.
#[derive(Drop)]
pub(crate) struct Learner {
    pub(crate) store: Store,
    trail: Trail,
    /// What was assumed the last time.
    assumed: Vec<Term>,
    /// The values of the last choice that broke no conflict.
    witness: Vec<u64>,
}

/// At so many conflicts of one question the learner leaves it open.
const PATIENCE: usize = 20_000;

impl Learner {
    pub(crate) fn begin(
        alloc: Global,
        universe: &Universe,
        rules: &EnvRules,
        roots: &Roots,
        dead: &Flags,
    ) -> Result<Learner, NoMemory>
        requires { AreNeverChosen universe.now rules.now roots.now dead.now }
        ensures { IfOk result (λ learner. KeepsConflicts universe.now rules.now roots.now learner.store) }
    {
        let store = Store::begin(alloc, universe, rules, roots, dead)?;
        let mut trail = Trail::begin(alloc, universe.cookbooks.len())?;
        for index in 0..store.known.len() {
            trail.list(Kept::Known(index), store.known[index].terms.as_slice())?;
        }
        trail.look_at_all()?;
        Ok(Learner {
            store,
            trail,
            assumed: Vec::new(alloc),
            witness: Vec::new(alloc),
        })
    }

    /// Whether the last choice that broke no conflict has the term.
    pub(crate) fn has_witness(&self, term: &Term) -> bool {
        let values = self.witness.get(term.cookbook).copied().unwrap_or(0);
        values != 0 && values & !term.values == 0
    }

    /// A conflict of which all terms hold where these are assumed, and `None` where none is found.
    pub(crate) fn refuted(
        &mut self,
        alloc: Global,
        assumed: &[Term],
    ) -> Result<Option<Conflict>, NoMemory>
        ensures grows { OnOk result (Grows self.old.store self.new.store) }
        ensures found { IfOk result (λ found. IfSome found (λ conflict. Follows self.old.store conflict.terms.items)) }
    {
        assume(alloc, &mut self.trail, &mut self.assumed, assumed)?;
        for _ in 0..PATIENCE {
            if let Some(kept) = self.trail.follow(&self.store)? {
                let learned = learned_from(alloc, &self.store, &mut self.trail, kept, false)?;
                let Some(terms) = learned else {
                    return Ok(None);
                };
                if terms.is_empty() {
                    return Ok(Some(Conflict { terms }));
                }
                learn(alloc, &mut self.store, &mut self.trail, terms)?;
            } else if let Some(kept) = refusing(&self.trail, assumed) {
                let learned = learned_from(alloc, &self.store, &mut self.trail, kept, true)?;
                let Some(terms) = learned else {
                    return Ok(None);
                };
                return Ok(Some(Conflict { terms }));
            } else if !choose_next(&mut self.trail, assumed, self.witness.as_slice())? {
                self.trail.copy_values(&mut self.witness)?;
                return Ok(None);
            }
        }
        Ok(None)
    }
}

ghost use Rattle.dep_solver.specs.Conflicts.{Follows};

// Takes back what was chosen, but for what is assumed now as it was the last time.
fn assume(
    alloc: Global,
    trail: &mut Trail,
    before: &mut Vec<Term>,
    now: &[Term],
) -> Result<(), NoMemory> {
    let count = alike(before.as_slice(), now);
    if count < trail.level {
        trail.take_back(count);
    }
    *before = Vec::from_slice(alloc, now)?;
    Ok(())
}

// How many terms the two begin with alike.
fn alike(ones: &[Term], others: &[Term]) -> usize {
    for index in 0..ones.len() {
        let Some(other) = others.get(index) else {
            return index;
        };
        if ones[index].cookbook != other.cookbook || ones[index].values != other.values {
            return index;
        }
    }
    ones.len()
}

// What follows of a kept conflict and of what came before it: up to where one term alone holds by the last choice, or up to
// choices.
fn learned_from(
    alloc: Global,
    store: &Store,
    trail: &mut Trail,
    kept: Kept,
    is_to_choices: bool,
) -> Result<Option<Vec<Term>>, NoMemory>
    ensures { IfOk result (λ learned. IfSome learned (λ terms. Follows store.now terms.items)) }
{
    let Some(known) = store.terms_of(kept) else {
        return Ok(None);
    };
    let terms = Vec::from_slice(alloc, known)?;
    let learned = resolved_back(alloc, store, trail, terms, is_to_choices)?;
    Ok(Some(learned))
}

// Goes back from event to event: puts in place of a term that holds by a conflict what that conflict asks besides. Ends
// where one term alone holds by the last choice, or else where all hold by choices.
fn resolved_back(
    alloc: Global,
    store: &Store,
    trail: &mut Trail,
    terms: Vec<Term>,
    is_to_choices: bool,
) -> Result<Vec<Term>, NoMemory>
    requires { Follows store.now terms.items }
    ensures { IfOk result (λ resolved. Follows store.now resolved.items) }
{
    let mut resolved_terms = terms;
    for _ in 0..trail.events.len() {
        let Some(event) = next_event(trail, resolved_terms.as_slice(), is_to_choices) else {
            return Ok(resolved_terms);
        };
        let Reason::Follows(kept) = event.reason else {
            return Ok(resolved_terms);
        };
        let Some(others) = store.terms_of(kept) else {
            return Ok(resolved_terms);
        };
        trail.mark(event.cookbook);
        resolved_terms = resolved(alloc, resolved_terms.as_slice(), others, event.cookbook)?;
    }
    Ok(resolved_terms)
}

// The newest event that followed of a conflict and by which a term holds.
fn next_event(trail: &Trail, terms: &[Term], is_to_choices: bool) -> Option<Event> {
    let mut newest = 0;
    let mut level = 0;
    let mut count: usize = 0;
    for term in terms {
        let number = trail.event_of(term);
        if let Some(event) = trail.event(number) {
            if event.level > level {
                level = event.level;
                count = 1;
            } else if event.level == level {
                count = count.saturating_add(1);
            }
            if number > newest && is_to_choices <= followed(event.reason) {
                newest = number;
            }
        }
    }
    if !is_to_choices && level > 0 && count < 2 {
        return None;
    }
    trail.event(newest)
}

fn followed(reason: Reason) -> bool {
    match reason {
        Reason::Chosen => false,
        Reason::Follows(_) => true,
    }
}

// Keeps what was learned, and goes back to where it says something new.
fn learn(
    alloc: Global,
    store: &mut Store,
    trail: &mut Trail,
    terms: Vec<Term>,
) -> Result<(), NoMemory>
    requires { Follows store.old terms.items }
    ensures { OnOk result (Grows store.old store.new) }
{
    trail.mark_all(terms.as_slice());
    trail.take_back(level_below(trail, terms.as_slice()));
    if store.learned.len() >= MOST {
        store.drop_longest(alloc)?;
        trail.list_again(store.learned.as_slice())?;
        trail.clear();
        trail.look_at_all()?;
    }
    let kept = Kept::Learned(store.learned.len());
    trail.list(kept, terms.as_slice())?;
    store.learn(terms)?;
    let _ = trail.look_at(store, kept)?;
    Ok(())
}

// The number of choices by which all terms but one hold.
fn level_below(trail: &Trail, terms: &[Term]) -> usize {
    let mut last = 0;
    let mut below = 0;
    for term in terms {
        if let Some(event) = trail.event(trail.event_of(term)) {
            if event.level > last {
                below = last;
                last = event.level;
            } else if event.level > below && event.level < last {
                below = event.level;
            }
        }
    }
    below
}

// The conflict by which the next of what is assumed can't be.
fn refusing(trail: &Trail, assumed: &[Term]) -> Option<Kept> {
    let term = assumed.get(trail.level)?;
    if trail.values_of(term.cookbook) & term.values != 0 {
        return None;
    }
    match trail.loss(term)?.reason {
        Reason::Chosen => None,
        Reason::Follows(kept) => Some(kept),
    }
}

// Chooses the next of what is assumed, or else a version of the cookbook that was most in conflicts. It is false where
// nothing is left to choose.
fn choose_next(trail: &mut Trail, assumed: &[Term], witness: &[u64]) -> Result<bool, NoMemory> {
    if let Some(term) = assumed.get(trail.level) {
        trail.choose(*term)?;
        return Ok(true);
    }
    let Some(cookbook) = trail.most_active() else {
        return Ok(false);
    };
    let left = trail.values_of(cookbook);
    let before = left & witness.get(cookbook).copied().unwrap_or(0);
    let values = newest(if before == 0 { left } else { before });
    trail.choose(Term { cookbook, values })?;
    Ok(true)
}

// Of the values that of the newest release, alone.
fn newest(values: u64) -> u64 {
    let zeros = values.trailing_zeros();
    if zeros < 64 { only(zeros) } else { 0 }
}
