//! Keys under numbers that stay, and the order of the keys.
ghost use Rattle.std.specs.Prelude.{◌≡◌, ◌+◌, ◌≤◌, MatchOption, IfOk, IsSome, IsTrue, OnOk, OnErr, Some, [], ◌↔◌, length, option_copied};
ghost use Rattle.ordered_keys.specs.Keys.{AreBetween, Grows, HasBetween, Inserts, IsAbsent, IsAt, IsOnce, Numbers, Removes, key_of};
ghost use Rattle.std.specs.declared.cmp.Ordering.TheVariants.{Equal};

use crate::arranged::Arranged;
use crate::probes::{Near, Own, Probe, Whole};
use doc_tree::NoMemory;
use std::alloc::Global;
use std::marker::Model;

/// Keys, no two of them equal, each under a number that it keeps. Contracts see the key under each number, and how many
/// more keys fit without memory.
#[derive(Drop)]
pub struct Ordered<K: Ord> {
    // In the order that the keys have by themselves.
    keys: Arranged<K>,
}

impl<K: Ord> Model for Ordered<K> {
    ghost use Rattle.ordered_keys.specs.Arranged.{keys_of};
    ghost use Rattle.ordered_keys.specs.Keys.{Keys, keys_code};

    ghost Value = { Keys K };

    ghost coded = { keys_code K.code };

    ghost use Rattle.ordered_keys.specs.Order.{IsInOrder};

    ghost view = { λ o. keys_of o.keys };

    ghost invariant = { λ o. IsInOrder K.cmp o.keys };
}

impl<K: Ord> Ordered<K> {
    /// No key, and no room. It takes no memory.
    pub fn none(alloc: Global) -> Ordered<K>
        ensures { result ≡ record { slots = []; room = 0 } }
    {
        Ordered {
            keys: Arranged::none(alloc),
        }
    }

    /// The key under a number, which has one.
    pub fn key(&self, number: usize) -> &K
        requires { IsSome (key_of self.now number) }
        ensures { key_of self.now number ≡ Some result.now }
    {
        self.keys.item(number)
    }

    /// The key under a number, if there is one.
    pub fn get(&self, number: usize) -> Option<&K>
        ensures { option_copied result ≡ key_of self.now number }
    {
        self.keys.get(number)
    }

    /// The number behind one that has a key.
    pub fn after(&self, number: usize) -> usize
        requires { IsSome (key_of self.now number) }
        ensures { result ≡ number + 1 }
    {
        self.keys.after(number)
    }

    /// How many numbers there are, with a key and without.
    pub fn size(&self) -> usize
        ensures { result ≡ length self.now.slots }
    {
        self.keys.size()
    }

    /// How many more keys fit without memory.
    pub fn room(&self) -> usize
        ensures { result ≡ self.now.room }
    {
        self.keys.room()
    }

    /// The number of the key that is equal to this, if there is one.
    pub fn find<P: Probe<K>>(&self, probe: &P) -> Option<usize>
        ensures { MatchOption result (IsAbsent K.cmp self.now (P.sought probe.now)) (IsAt K.cmp self.now (P.sought probe.now)) }
    {
        self.keys.find(&Near(probe))
    }

    /// The numbers of the keys from one bound on and below the other, in the order of the keys. `NoMemory` where there is
    /// none for so many.
    pub fn between<P: Probe<K>>(
        &self,
        alloc: Global,
        low: &P,
        high: &P,
    ) -> Result<Vec<usize>, NoMemory>
        ensures { IfOk result (λ numbers. AreBetween K.cmp self.now (P.sought low.now) (P.sought high.now) numbers.items) }
    {
        self.keys.between(alloc, &Near(low), &Near(high))
    }

    /// Whether some key is from one bound on and below the other.
    pub fn has_between<P: Probe<K>>(&self, low: &P, high: &P) -> bool
        ensures { IsTrue result ↔ HasBetween K.cmp self.now (P.sought low.now) (P.sought high.now) }
    {
        self.keys.has_between(&Near(low), &Near(high))
    }
}

impl<K: Ord + Drop> Ordered<K> {
    /// Makes so many more numbers, and the memory that a key under each will want. Where there is no memory (`NoMemory`),
    /// nothing changes.
    pub fn grow(&mut self, more: usize) -> Result<(), NoMemory>
        ensures ok { OnOk result (Grows self.old self.new more) }
        ensures err { OnErr result (self.new ≡ self.old) }
    {
        self.keys.grow(more)
    }

    /// Puts in a key that no key is equal to, and tells its number. It takes no memory.
    pub fn insert(&mut self, key: K) -> usize
        requires absent { IsAbsent K.cmp self.old key }
        requires room { 1 ≤ self.old.room }
        ensures { Inserts self.old self.new key result }
    {
        self.keys.insert(&Own, key)
    }

    /// The number of a key, which is put in where no key is equal to it. It takes no memory.
    pub fn number_of(&mut self, key: K) -> usize
        requires alike { (x y : K) → K.cmp x y ≡ Equal → x ≡ y }
        requires once { IsOnce self.old }
        requires room { 1 ≤ self.old.room }
        ensures { Numbers self.old self.new key result }
    {
        match self.find(&Whole(&key)) {
            Some(number) => number,
            None => self.insert(key),
        }
    }

    /// Takes out the key under a number, which has one. It takes no memory.
    pub fn remove(&mut self, number: usize)
        requires { IsSome (key_of self.old number) }
        ensures { Removes self.old self.new number }
    {
        self.keys.remove(&Own, number)
    }
}
