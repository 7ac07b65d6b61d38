//! Whose objects a search looks among: an organisation and one of its indexes.
ghost use Rattle.std.specs.Cmp.{eq_by_cmp_equiv, partial_equiv_from_equiv, partial_order_from_total};
ghost use Rattle.std.specs.Prelude.{◌≡◌, ◌+◌, ◌≤◌, IsSome, MatchOption, OnErr, OnOk, Some, [], refl};
ghost use Rattle.ordered_keys.specs.Keys.{Grows, IsAbsent, IsAt, IsOnce, Numbers, Removes, key_of};
ghost use Rattle.search_index.specs.Scope.{same_scope, scope_at, scope_cmp, scope_cmp_total};

use crate::key::MOST_NUMBERS;
use doc_tree::{NoMemory, Text};
use ordered_keys::{Ordered, Probe};
use std::alloc::Global;
use std::cmp::Ordering;
use std::marker::Model;

/// An organisation and one of its indexes, by their names. Scopes are in the order of the bytes of the organisations, and
/// then of the indexes.
#[derive(Drop)]
pub struct Scope {
    /// The organisation.
    pub org: Text,
    /// The index.
    pub index: Text,
}

impl PartialEq for Scope {
    ghost eq = { same_scope };

    ghost laws = { partial_equiv_from_equiv (eq_by_cmp_equiv scope_cmp_total) };

    fn eq(&self, other: &Self) -> bool {
        self.cmp(other) == Ordering::Equal
    }
}

impl Eq for Scope {
    ghost laws = { eq_by_cmp_equiv scope_cmp_total };
}

impl PartialOrd for Scope {
    ghost partial_cmp = { λ x y. Some (scope_cmp x y) };

    ghost laws = { partial_order_from_total scope_cmp_total };

    fn partial_cmp(&self, other: &Self) -> Option<Ordering> {
        Some(self.cmp(other))
    }
}

impl Ord for Scope {
    ghost cmp = { scope_cmp };

    ghost total = { scope_cmp_total };

    ghost matches_partial_cmp = { λ x y. refl };

    ghost matches_eq = { λ x y. refl };

    fn cmp(&self, other: &Self) -> Ordering {
        self.org
            .cmp(&other.org)
            .then_with(|| self.index.cmp(&other.index))
    }
}

/// An organisation and one of its indexes, by borrowed names.
#[derive(Clone, Copy)]
pub struct ScopeAt<'a> {
    /// The organisation.
    pub org: &'a Text,
    /// The index.
    pub index: &'a Text,
}

impl<'a> Probe<Scope> for ScopeAt<'a> {
    ghost sought = { scope_at };

    fn order_of(&self, key: &Scope) -> Ordering {
        key.org
            .cmp(self.org)
            .then_with(|| key.index.cmp(self.index))
    }
}

/// Scopes, no two of them equal, each under a number of 32 bits that it keeps. Contracts see the scope under each number,
/// and how many more scopes fit without memory.
#[derive(Drop)]
pub(crate) struct Scopes {
    held: Ordered<Scope>,
}

impl Model for Scopes {
    ghost use Rattle.std.specs.Prelude.{◌≤◌, length};
    ghost use Rattle.ordered_keys.specs.Keys.{Keys, keys_code};
    ghost use Rattle.search_index.specs.Arena.{scope_code};
    ghost use Rattle.search_index.specs.declared.scope.Scope.{Scope};

    ghost Value = { Keys Scope };

    ghost coded = { keys_code scope_code };

    ghost view = { λ s. s.held };

    ghost invariant = { λ s. length s.held.slots ≤ 4294967294 };
}

impl Scopes {
    /// No scope, and no room. It takes no memory.
    pub(crate) fn none(alloc: Global) -> Scopes
        ensures { result ≡ record { slots = []; room = 0 } }
    {
        Scopes {
            held: Ordered::none(alloc),
        }
    }

    /// How many more scopes fit without memory.
    pub(crate) fn room(&self) -> usize
        ensures { result ≡ self.now.room }
    {
        self.held.room()
    }

    /// The number of a scope, if it is there.
    pub(crate) fn find(&self, scope: &ScopeAt) -> Option<u32>
        ensures { MatchOption result (IsAbsent scope_cmp self.now (scope_at scope.now)) (IsAt scope_cmp self.now (scope_at scope.now)) }
    {
        match self.held.find(scope) {
            Some(number) => Some(number as u32),
            None => None,
        }
    }

    /// The number behind one that has a scope.
    pub(crate) fn after(&self, number: u32) -> u32
        requires { IsSome (key_of self.now number) }
        ensures { result ≡ number + 1 }
    {
        self.held.after(number as usize) as u32
    }

    /// Makes so many more numbers, and the memory that a scope under each will want. Where there is no memory, or where
    /// there would be 2^32 - 1 numbers or more (`NoMemory`), nothing changes.
    pub(crate) fn grow(&mut self, more: usize) -> Result<(), NoMemory>
        ensures ok { OnOk result (Grows self.old self.new more) }
        ensures err { OnErr result (self.new ≡ self.old) }
    {
        let Some(size) = self.held.size().checked_add(more) else {
            return Err(NoMemory);
        };
        if size > MOST_NUMBERS {
            return Err(NoMemory);
        }
        self.held.grow(more)
    }

    /// The number of a scope, which is put in where it isn't there. It takes no memory.
    pub(crate) fn number_of(&mut self, scope: Scope) -> u32
        requires once { IsOnce self.old }
        requires room { 1 ≤ self.old.room }
        ensures { Numbers self.old self.new scope result }
    {
        self.held.number_of(scope) as u32
    }

    /// Takes out the scope under a number, which has one. It takes no memory.
    pub(crate) fn remove(&mut self, number: u32)
        requires { IsSome (key_of self.old number) }
        ensures { Removes self.old self.new number }
    {
        self.held.remove(number as usize);
    }
}
