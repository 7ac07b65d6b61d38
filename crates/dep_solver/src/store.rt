//! The conflicts that a search keeps.
ghost use Rattle.std.specs.Prelude.{IfOk, IfSome, OnOk};
ghost use Rattle.dep_solver.specs.Search.{AreNeverChosen};
ghost use Rattle.dep_solver.specs.Conflicts.{Follows, Grows, GrowsBy, IsAmong, KeepsConflicts};

use crate::clashes::known_conflicts;
use crate::conflicts::{Conflict, Term};
use crate::finding::Flags;
use crate::roots::Roots;
use crate::rules::EnvRules;
use crate::universe::Universe;
use doc_tree::NoMemory;
use std::alloc::Global;

/// The conflicts that are known from the start, and those that were learned, which are at most [`MOST`].
#[derive(Drop)]
pub(crate) struct Store {
    pub(crate) known: Vec<Conflict>,
    pub(crate) learned: Vec<Conflict>,
}

/// A kept conflict.
#[derive(Clone, Copy)]
pub(crate) enum Kept {
    Known(usize),
    Learned(usize),
}

/// How many learned conflicts are kept: where one more is learned, half of them are dropped, the longest ones.
pub(crate) const MOST: usize = 200;

impl Store {
    /// What is known from the start.
    pub(crate) fn begin(
        alloc: Global,
        universe: &Universe,
        rules: &EnvRules,
        roots: &Roots,
        dead: &Flags,
    ) -> Result<Store, NoMemory>
        requires { AreNeverChosen universe.now rules.now roots.now dead.now }
        ensures { IfOk result (KeepsConflicts universe.now rules.now roots.now) }
    {
        Ok(Store {
            known: known_conflicts(alloc, universe, rules, roots, dead)?,
            learned: Vec::new(alloc),
        })
    }

    /// The terms of a kept conflict.
    pub(crate) fn terms_of(&self, kept: Kept) -> Option<&[Term]>
        ensures { IfSome result (λ terms. Follows self.now terms.now) }
    {
        match kept {
            Kept::Known(index) => terms_at(self.known.as_slice(), index),
            Kept::Learned(index) => terms_at(self.learned.as_slice(), index),
        }
    }

    /// Keeps one more conflict.
    pub(crate) fn learn(&mut self, terms: Vec<Term>) -> Result<(), NoMemory>
        ensures { OnOk result (GrowsBy self.old terms.items self.new) }
    {
        self.learned.push(Conflict { terms })?;
        Ok(())
    }

    /// Drops the longer half of what was learned.
    pub(crate) fn drop_longest(&mut self, alloc: Global) -> Result<(), NoMemory>
        ensures { OnOk result (Grows self.old self.new) }
    {
        let most = middle_length(alloc, self.learned.as_slice())?;
        self.learned.retain(|conflict| conflict.terms.len() < most);
        Ok(())
    }
}

fn terms_at(conflicts: &[Conflict], index: usize) -> Option<&[Term]>
    ensures { IfSome result (λ terms. IsAmong conflicts.now terms.now) }
{
    match conflicts.get(index) {
        Some(conflict) => Some(conflict.terms.as_slice()),
        None => None,
    }
}

// The number of terms that half of the conflicts are below.
fn middle_length(alloc: Global, conflicts: &[Conflict]) -> Result<usize, NoMemory> {
    let mut lengths = Vec::with_capacity(alloc, conflicts.len())?;
    for conflict in conflicts {
        lengths.push(conflict.terms.len())?;
    }
    lengths.sort_unstable();
    Ok(lengths.get(lengths.len() / 2).copied().unwrap_or(0))
}
