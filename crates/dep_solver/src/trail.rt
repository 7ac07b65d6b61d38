//! The values that each cookbook may still have after some choices, and why it lost the others.
//!
//! No clause speaks of it: it says where to look, and what it leaves out costs time, and never an answer.

use crate::conflicts::{Conflict, Term};
use crate::store::{Kept, Store};
use doc_tree::NoMemory;
use std::alloc::Global;

/// Why a cookbook lost values.
#[derive(Clone, Copy)]
pub(crate) enum Reason {
    /// One of its values was chosen.
    Chosen,
    /// All other terms of a conflict hold.
    Follows(Kept),
}

/// A cookbook lost values: those before, why, how many choices stood, and the number of its event before this one. Events
/// are counted from 1, and 0 is none.
#[derive(Clone, Copy)]
pub(crate) struct Event {
    pub(crate) cookbook: usize,
    pub(crate) before: u64,
    pub(crate) reason: Reason,
    pub(crate) level: usize,
    pub(crate) previous: usize,
}

/// The values that cookbooks may have, and how it came to this.
#[derive(Drop)]
pub(crate) struct Trail {
    /// The values that each cookbook may have.
    values: Vec<u64>,
    /// The number of the newest event of each cookbook.
    newest: Vec<usize>,
    pub(crate) events: Vec<Event>,
    /// How many choices stand.
    pub(crate) level: usize,
    /// The cookbooks whose conflicts are to be looked at, and whether each is among them.
    queue: Vec<usize>,
    is_queued: Vec<bool>,
    known_on: Vec<Vec<usize>>,
    learned_on: Vec<Vec<usize>>,
    /// How often each cookbook was in a conflict, where each counts more than the one before.
    activity: Vec<f64>,
    weight: f64,
}

/// What a conflict says, with the values that are left.
#[derive(Clone, Copy)]
enum Finding {
    Nothing,
    /// All terms but this hold.
    Open(Term),
    /// All terms hold.
    Broken,
}

impl Trail {
    /// Nothing is chosen, and nothing was looked at.
    pub(crate) fn begin(alloc: Global, count: usize) -> Result<Trail, NoMemory> {
        Ok(Trail {
            values: repeated(alloc, u64::MAX, count)?,
            newest: repeated(alloc, 0, count)?,
            events: Vec::new(alloc),
            level: 0,
            queue: Vec::new(alloc),
            is_queued: repeated(alloc, false, count)?,
            known_on: lists(alloc, count)?,
            learned_on: lists(alloc, count)?,
            activity: repeated(alloc, 0.0, count)?,
            weight: 1.0,
        })
    }

    /// The values that a cookbook may have.
    pub(crate) fn values_of(&self, cookbook: usize) -> u64 {
        self.values.get(cookbook).copied().unwrap_or(0)
    }

    /// Puts a conflict on the lists of its cookbooks.
    pub(crate) fn list(&mut self, kept: Kept, terms: &[Term]) -> Result<(), NoMemory> {
        for term in terms {
            match kept {
                Kept::Known(index) => list_at(&mut self.known_on, term.cookbook, index)?,
                Kept::Learned(index) => list_at(&mut self.learned_on, term.cookbook, index)?,
            }
        }
        Ok(())
    }

    /// Lists the learned conflicts anew.
    pub(crate) fn list_again(&mut self, learned: &[Conflict]) -> Result<(), NoMemory> {
        for index in 0..self.learned_on.len() {
            clear_at(&mut self.learned_on, index);
        }
        for index in 0..learned.len() {
            self.list(Kept::Learned(index), learned[index].terms.as_slice())?;
        }
        Ok(())
    }

    // A cookbook has no other values from now on.
    fn leave(&mut self, cookbook: usize, values: u64, reason: Reason) -> Result<(), NoMemory> {
        let event = Event {
            cookbook,
            before: self.values_of(cookbook),
            reason,
            level: self.level,
            previous: self.newest.get(cookbook).copied().unwrap_or(0),
        };
        self.events.push(event)?;
        let number = self.events.len();
        put(&mut self.newest, cookbook, number);
        put(&mut self.values, cookbook, values);
        self.look_later(cookbook)
    }

    fn look_later(&mut self, cookbook: usize) -> Result<(), NoMemory> {
        if !self.is_queued.get(cookbook).copied().unwrap_or(true) {
            put(&mut self.is_queued, cookbook, true);
            self.queue.push(cookbook)?;
        }
        Ok(())
    }

    fn look_at_none(&mut self) {
        for index in 0..self.queue.len() {
            put(&mut self.is_queued, self.queue[index], false);
        }
        self.queue.clear();
    }

    /// One more choice: a cookbook has one of these values.
    pub(crate) fn choose(&mut self, term: Term) -> Result<(), NoMemory> {
        self.level = self.level.saturating_add(1);
        let values = self.values_of(term.cookbook);
        if values & term.values != values {
            self.leave(term.cookbook, values & term.values, Reason::Chosen)?;
        }
        Ok(())
    }

    /// Takes back all choices but so many, and what followed of them.
    pub(crate) fn take_back(&mut self, level: usize) {
        for _ in 0..self.events.len() {
            let Some(event) = self.events.last().copied() else {
                break;
            };
            if event.level <= level {
                break;
            }
            let _ = self.events.pop();
            put(&mut self.values, event.cookbook, event.before);
            put(&mut self.newest, event.cookbook, event.previous);
        }
        self.level = level;
    }

    /// Looks at all conflicts later.
    pub(crate) fn look_at_all(&mut self) -> Result<(), NoMemory> {
        for cookbook in 0..self.values.len() {
            self.look_later(cookbook)?;
        }
        Ok(())
    }

    /// Copies the values that are left.
    pub(crate) fn copy_values(&self, values: &mut Vec<u64>) -> Result<(), NoMemory> {
        values.clear();
        for left in self.values.as_slice() {
            values.push(*left)?;
        }
        Ok(())
    }

    /// Takes back everything, so that each conflict can be looked at anew.
    pub(crate) fn clear(&mut self) {
        for index in 0..self.values.len() {
            self.values[index] = u64::MAX;
        }
        for index in 0..self.newest.len() {
            self.newest[index] = 0;
        }
        self.events.clear();
        self.level = 0;
        self.look_at_none();
    }

    // What a conflict says.
    fn finding(&self, terms: &[Term]) -> Finding {
        let mut found = Finding::Broken;
        for term in terms {
            if self.values_of(term.cookbook) & !term.values != 0 {
                match found {
                    Finding::Broken => found = Finding::Open(*term),
                    _ => return Finding::Nothing,
                }
            }
        }
        found
    }

    /// Looks at a conflict, and is true where all its terms hold.
    pub(crate) fn look_at(&mut self, store: &Store, kept: Kept) -> Result<bool, NoMemory> {
        let Some(terms) = store.terms_of(kept) else {
            return Ok(false);
        };
        match self.finding(terms) {
            Finding::Nothing => Ok(false),
            Finding::Broken => Ok(true),
            Finding::Open(term) => {
                let values = self.values_of(term.cookbook);
                if values & term.values != 0 {
                    let reason = Reason::Follows(kept);
                    self.leave(term.cookbook, values & !term.values, reason)?;
                }
                Ok(false)
            }
        }
    }

    /// Looks at all conflicts on cookbooks that lost values, until nothing more follows or all terms of one hold.
    pub(crate) fn follow(&mut self, store: &Store) -> Result<Option<Kept>, NoMemory> {
        let most = self.values.len().saturating_mul(64);
        for position in 0..most {
            let Some(cookbook) = self.queue.get(position).copied() else {
                break;
            };
            put(&mut self.is_queued, cookbook, false);
            let broken = self.look_at_known(store, cookbook)?;
            if broken.is_some() {
                self.look_at_none();
                return Ok(broken);
            }
            let broken = self.look_at_learned(store, cookbook)?;
            if broken.is_some() {
                self.look_at_none();
                return Ok(broken);
            }
        }
        self.look_at_none();
        Ok(None)
    }

    fn look_at_known(&mut self, store: &Store, cookbook: usize) -> Result<Option<Kept>, NoMemory> {
        for position in 0..count_at(&self.known_on, cookbook) {
            let Some(index) = number_at(&self.known_on, cookbook, position) else {
                break;
            };
            if self.look_at(store, Kept::Known(index))? {
                return Ok(Some(Kept::Known(index)));
            }
        }
        Ok(None)
    }

    fn look_at_learned(
        &mut self,
        store: &Store,
        cookbook: usize,
    ) -> Result<Option<Kept>, NoMemory> {
        for position in 0..count_at(&self.learned_on, cookbook) {
            let Some(index) = number_at(&self.learned_on, cookbook, position) else {
                break;
            };
            if self.look_at(store, Kept::Learned(index))? {
                return Ok(Some(Kept::Learned(index)));
            }
        }
        Ok(None)
    }

    /// The number of the event by which a term came to hold, and 0 where it doesn't or where it did from the start.
    pub(crate) fn event_of(&self, term: &Term) -> usize {
        if self.values_of(term.cookbook) & !term.values != 0 {
            return 0;
        }
        let mut number = self.newest.get(term.cookbook).copied().unwrap_or(0);
        for _ in 0..self.events.len() {
            let Some(event) = self.event(number) else {
                return 0;
            };
            if event.before & !term.values != 0 {
                return number;
            }
            number = event.previous;
        }
        0
    }

    /// The event of a number.
    pub(crate) fn event(&self, number: usize) -> Option<Event> {
        if number == 0 {
            return None;
        }
        self.events.get(number - 1).copied()
    }

    /// The event by which a cookbook lost a value.
    pub(crate) fn loss(&self, term: &Term) -> Option<Event> {
        let mut number = self.newest.get(term.cookbook).copied().unwrap_or(0);
        for _ in 0..self.events.len() {
            let event = self.event(number)?;
            if event.before & term.values != 0 {
                return Some(event);
            }
            number = event.previous;
        }
        None
    }

    /// The cookbook to choose a version of: one that has to be chosen, has several values left, and
    /// was most in conflicts for each of them.
    pub(crate) fn most_active(&self) -> Option<usize> {
        let mut found = None;
        let mut most = -1.0;
        for cookbook in 0..self.values.len() {
            let values = self.values[cookbook];
            if values & 1 == 0 && values.count_ones() > 1 {
                let activity = self.activity.get(cookbook).copied().unwrap_or(0.0);
                let share = (activity + self.weight * 0.001) / f64::from(values.count_ones());
                if share > most {
                    most = share;
                    found = Some(cookbook);
                }
            }
        }
        found
    }

    /// A cookbook was in a conflict.
    pub(crate) fn mark(&mut self, cookbook: usize) {
        let activity = self.activity.get(cookbook).copied().unwrap_or(0.0);
        put(&mut self.activity, cookbook, activity + self.weight);
    }

    /// The cookbooks of these terms were in a conflict, and the next conflict counts more.
    pub(crate) fn mark_all(&mut self, terms: &[Term]) {
        for term in terms {
            self.mark(term.cookbook);
        }
        self.weight *= 1.05;
        if self.weight > 1e100 {
            for index in 0..self.activity.len() {
                self.activity[index] *= 1e-100;
            }
            self.weight *= 1e-100;
        }
    }
}

fn repeated<T: Copy>(alloc: Global, item: T, count: usize) -> Result<Vec<T>, NoMemory> {
    let mut items = Vec::with_capacity(alloc, count)?;
    for _ in 0..count {
        items.push(item)?;
    }
    Ok(items)
}

fn lists(alloc: Global, count: usize) -> Result<Vec<Vec<usize>>, NoMemory> {
    let mut lists = Vec::with_capacity(alloc, count)?;
    for _ in 0..count {
        lists.push(Vec::new(alloc))?;
    }
    Ok(lists)
}

fn list_at(lists: &mut Vec<Vec<usize>>, index: usize, number: usize) -> Result<(), NoMemory> {
    if index < lists.len() {
        lists[index].push(number)?;
    }
    Ok(())
}

fn clear_at(lists: &mut Vec<Vec<usize>>, index: usize) {
    if index < lists.len() {
        lists[index].clear();
    }
}

fn count_at(lists: &[Vec<usize>], index: usize) -> usize {
    match lists.get(index) {
        Some(list) => list.len(),
        None => 0,
    }
}

fn number_at(lists: &[Vec<usize>], index: usize, position: usize) -> Option<usize> {
    lists.get(index)?.get(position).copied()
}

fn put<T: Copy>(items: &mut Vec<T>, index: usize, item: T) {
    if index < items.len() {
        items[index] = item;
    }
}
