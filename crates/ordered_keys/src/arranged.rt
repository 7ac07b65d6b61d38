//! Items under numbers that stay, in an order that is told from outside.
ghost use Rattle.std.specs.Prelude.{◌≡◌, ◌+◌, ◌≤◌, MatchOption, IfOk, IsSome, IsTrue, OnOk, OnErr, Some, [], ◌↔◌, length, option_copied, vec_capacity};
ghost use Rattle.ordered_keys.specs.Keys.{Grows, Inserts, Removes, key_in};
ghost use Rattle.ordered_keys.specs.Numbers.{Loses};
ghost use Rattle.ordered_keys.specs.Arranged.{AreWithin, CanLeave, HasWithin, IsCut, IsListed, NoneStands, Places, StandsAt, item_of, keys_of};

use crate::nodes::{NONE, Node, hang, node_at};
use crate::sought::{Ranked, Ranking, Sought};
use crate::tree::{gather, placed, standing_at, without};
use doc_tree::NoMemory;
use std::alloc::Global;
use std::cmp::Ordering;
use std::marker::Model;

/// Items, each under a number that it keeps, in an order that each call is told anew: what is looked for, or a ranking.
/// Contracts see the item under each number, the numbers in their order, and how many more items fit without memory.
#[derive(Drop)]
pub struct Arranged<T> {
    items: Vec<Option<T>>,
    // One for each number: in the tree of the order for that of an item, and for a free one in the chain of the free
    // numbers, in which each has the next on its right.
    nodes: Vec<Node>,
    // The topmost number of the order.
    top: u32,
    // The first free number.
    free: u32,
    // How many are free.
    room: usize,
}

impl<T> Model for Arranged<T> {
    ghost use Rattle.ordered_keys.specs.Arranged.{Arrangement, arrangement_code};

    ghost Value = { Arrangement T };

    ghost coded = { arrangement_code T.code };

    ghost use Rattle.ordered_keys.specs.Nodes.{numbers_in};
    ghost use Rattle.ordered_keys.specs.Stored.{IsStored};

    ghost view = { λ a. record { slots = a.items.items; order = numbers_in a.nodes.items a.top; room = a.room } };

    ghost invariant = { λ a. IsStored a.items.items a.nodes.items a.top a.free a.room };
}

impl<T> Arranged<T> {
    /// No item, and no room. It takes no memory.
    pub fn none(alloc: Global) -> Arranged<T>
        ensures { result ≡ record { slots = []; order = []; room = 0 } }
    {
        Arranged {
            items: Vec::new(alloc),
            nodes: Vec::new(alloc),
            top: NONE,
            free: NONE,
            room: 0,
        }
    }

    /// The order has the numbers of all items, each once. A law: it does nothing.
    pub fn known(&self)
        ensures { IsListed self.now }
    {
        let _ = &self.items;
    }

    /// The item under a number, which has one.
    pub fn item(&self, number: usize) -> &T
        requires { IsSome (item_of self.now number) }
        ensures { item_of self.now number ≡ Some result.now }
    {
        item_at(&self.items, number)
    }

    /// The item under a number, if there is one.
    pub fn get(&self, number: usize) -> Option<&T>
        ensures { option_copied result ≡ item_of self.now number }
    {
        match self.items.get(number) {
            Some(Some(item)) => Some(item),
            _ => None,
        }
    }

    /// The number behind one that has an item.
    pub fn after(&self, number: usize) -> usize
        requires { IsSome (item_of self.now number) }
        ensures { result ≡ number + 1 }
    {
        let _ = &self.items;
        number + 1
    }

    /// How many numbers there are, with an item and without.
    pub fn size(&self) -> usize
        ensures { result ≡ length self.now.slots }
    {
        self.items.len()
    }

    /// How many more items fit without memory.
    pub fn room(&self) -> usize
        ensures { result ≡ self.now.room }
    {
        self.room
    }

    /// The number of an item that is equal to what is looked for, if there is one. It asks that the arrangement is cut by
    /// what is looked for.
    pub fn find<S: Sought<T>>(&self, sought: &S) -> Option<usize>
        requires { IsCut (S.standing sought.now) self.now }
        ensures { MatchOption result (NoneStands (S.standing sought.now) self.now) (StandsAt (S.standing sought.now) self.now) }
    {
        let mut at = self.top;
        while at != NONE {
            let node = node_at(&self.nodes, at);
            match standing_at(&self.items, at, sought) {
                Ordering::Less => at = node.right,
                Ordering::Greater => at = node.left,
                Ordering::Equal => return Some(at as usize),
            }
        }
        None
    }

    /// The numbers of the items from one bound on and below the other, in their order. It asks that the arrangement is cut
    /// by either bound. `NoMemory` where there is none for so many.
    pub fn between<S: Sought<T>>(
        &self,
        alloc: Global,
        low: &S,
        high: &S,
    ) -> Result<Vec<usize>, NoMemory>
        requires low { IsCut (S.standing low.now) self.now }
        requires high { IsCut (S.standing high.now) self.now }
        ensures { IfOk result (λ numbers. AreWithin (S.standing low.now) (S.standing high.now) self.now numbers.items) }
    {
        let mut found = Vec::new(alloc);
        gather(&self.nodes, self.top, &self.items, low, high, &mut found)?;
        Ok(found)
    }

    /// Whether some item is from one bound on and below the other. It asks that the arrangement is cut by either bound.
    pub fn has_between<S: Sought<T>>(&self, low: &S, high: &S) -> bool
        requires low { IsCut (S.standing low.now) self.now }
        requires high { IsCut (S.standing high.now) self.now }
        ensures { IsTrue result ↔ HasWithin (S.standing low.now) (S.standing high.now) self.now }
    {
        let mut at = self.top;
        while at != NONE {
            let node = node_at(&self.nodes, at);
            if standing_at(&self.items, at, low) == Ordering::Less {
                at = node.right;
            } else if standing_at(&self.items, at, high) == Ordering::Less {
                return true;
            } else {
                at = node.left;
            }
        }
        false
    }
}

impl<T: Drop> Arranged<T> {
    /// Makes so many more numbers, and the memory that an item under each will want. Where there is no memory, or there
    /// would be 2^32 - 1 numbers or more (`NoMemory`), nothing changes.
    pub fn grow(&mut self, more: usize) -> Result<(), NoMemory>
        ensures ok { OnOk result (Grows (keys_of self.old) (keys_of self.new) more) }
        ensures order { self.new.order ≡ self.old.order }
        ensures err { OnErr result (self.new ≡ self.old) }
    {
        let Some(size) = self.items.len().checked_add(more) else {
            return Err(NoMemory);
        };
        if size >= NONE as usize {
            return Err(NoMemory);
        }
        self.nodes.reserve(more)?;
        self.items.reserve(more)?;
        for fresh in self.items.len()..size {
            self.items.push_reserved(None);
            self.nodes.push_reserved(Node {
                left: NONE,
                right: self.free,
            });
            self.free = fresh as u32;
            self.room += 1;
        }
        Ok(())
    }

    /// Puts in an item that none is equal to, in its place by the ranking, and tells its number. It takes no memory.
    pub fn insert<R: Ranking<T>>(&mut self, ranking: &R, item: T) -> usize
        requires cut { IsCut (λ x. R.cmp ranking.now x item) self.old }
        requires absent { NoneStands (λ x. R.cmp ranking.now x item) self.old }
        requires room { 1 ≤ self.old.room }
        ensures put { Inserts (keys_of self.old) (keys_of self.new) item result }
        ensures order { Places (λ x. R.cmp ranking.now x item) self.old self.new result }
    {
        let number = self.free;
        let sought = Ranked {
            ranking,
            item: &item,
        };
        self.free = node_at(&self.nodes, number).right;
        self.room -= 1;
        self.top = placed(&mut self.nodes, self.top, &self.items, &sought, number);
        self.items[number as usize] = Some(item);
        number as usize
    }

    /// Takes out the item under a number, which has one that no other is equal to. It takes no memory.
    pub fn remove<R: Ranking<T>>(&mut self, ranking: &R, number: usize)
        requires { CanLeave (R.cmp ranking.now) self.old number }
        ensures gone { Removes (keys_of self.old) (keys_of self.new) number }
        ensures order { Loses self.old.order number self.new.order }
    {
        let item = item_at(&self.items, number);
        let sought = Ranked { ranking, item };
        self.top = without(&mut self.nodes, self.top, &self.items, &sought);
        let next = self.free;
        self.free = number as u32;
        self.room += 1;
        self.items[number] = None;
        hang(&mut self.nodes, self.free, NONE, next);
    }
}

/// The item under a number.
fn item_at<T>(items: &[Option<T>], number: usize) -> &T
    requires { IsSome (key_in items.now number) }
    ensures { key_in items.now number ≡ Some result.now }
{
    match &items[number] {
        Some(item) => item,
        None => unreachable!(),
    }
}
