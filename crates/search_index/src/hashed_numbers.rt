//! Numbers by the hashes of what stands under them.
ghost use Rattle.std.specs.Prelude.{◌≡◌, ◌≢◌, ◌<◌, ◌≤◌, ℕ, Bool, None, OnErr, Option, length};
ghost use Rattle.search_index.specs.HashedNumbers.{AreMet, Finds, IsMet, Keeps, place_on_way};
ghost use Rattle.search_index.specs.Place.{no_number};

use crate::posting::NONE;
use doc_tree::NoMemory;
use std::alloc::Global;
use std::marker::Model;

/// Numbers in slots, each in the first slot that was free on the way from the hash of what stands under it: open addressing
/// with linear probing. A number stays in its slot when what stood under it is gone, and whoever comes by sees what stands
/// under it now. So the ways only grow longer, until all numbers are put in anew. Contracts see the slots.
#[derive(Drop)]
pub(crate) struct HashedNumbers {
    slots: Vec<u32>,
    // How many slots are taken, which only says when to put all in anew.
    taken: usize,
}

impl Model for HashedNumbers {
    ghost use Rattle.std.specs.Prelude.{List, ℕ};

    ghost Value = { List ℕ };

    ghost view = { λ h. h.slots.items };
}

/// What is looked for among numbers.
pub(crate) trait Meant {
    /// Whether a number is the one.
    ghost meant: { Self → ℕ → Bool };

    /// Whether a number is the one.
    fn is(&self, number: u32) -> bool
        ensures { result ≡ meant self.now number };
}

/// Things under numbers, each of which has a hash.
pub(crate) trait Hashes {
    /// The hash of what stands under a number: none where nothing does.
    ghost hash: { Self → ℕ → Option ℕ };

    /// How many numbers there are, with something under them and without.
    fn size(&self) -> usize
        ensures { (i : ℕ) → result ≤ i → hash self.now i ≡ None };

    /// The hash of what stands under a number, if something does.
    fn hash_at(&self, number: usize) -> Option<u64>
        ensures { result ≡ hash self.now number };
}

/// How a way ends.
#[derive(Clone, Copy, Drop)]
pub(crate) enum End {
    /// With the number that is looked for.
    Number(u32),
    /// With a free slot: none of the numbers that were put in is the one.
    FreeSlot,
    /// Where it began, since no slot is free: nothing is known.
    Begin,
}

impl HashedNumbers {
    /// No slot, so that nothing is known of any number. It takes no memory.
    pub(crate) fn none(alloc: Global) -> HashedNumbers
        ensures { (hash number : ℕ) → IsMet result hash number }
    {
        HashedNumbers {
            slots: Vec::new(alloc),
            taken: 0,
        }
    }

    /// Whether too few slots would be free behind so many more numbers.
    pub(crate) fn is_full_with(&self, more: usize) -> bool {
        self.taken.saturating_add(more) > self.slots.len() / 4 * 3
    }

    /// Puts the numbers of all these things in, and no others. Where there is no memory for it (`NoMemory`), there is no
    /// slot.
    pub(crate) fn begin_anew<H: Hashes>(&mut self, things: &H) -> Result<(), NoMemory>
        requires { (i : ℕ) → no_number ≤ i → H.hash things.now i ≡ None }
        ensures { AreMet (H.hash things.now) self.new }
    {
        self.slots.clear();
        self.taken = 0;
        let size = things.size();
        self.slots.resize(size.saturating_mul(2), NONE)?;
        for number in 0..size {
            if let Some(hash) = things.hash_at(number) {
                self.put(hash, number as u32);
            }
        }
        Ok(())
    }

    /// Looks for a number on the way from a hash.
    pub(crate) fn find<M: Meant>(&self, hash: u64, sought: &M) -> End
        ensures { Finds (M.meant sought.now) self.now hash result }
    {
        for step in 0..self.slots.len() {
            let number = self.slots[self.place(hash, step)];
            if number == NONE {
                return End::FreeSlot;
            }
            if sought.is(number) {
                return End::Number(number);
            }
        }
        End::Begin
    }

    /// Puts a number in on the way from a hash. The others are met as before.
    pub(crate) fn put(&mut self, hash: u64, number: u32)
        requires { number ≢ no_number }
        ensures met { IsMet self.new hash number }
        ensures keeps { Keeps self.old self.new }
    {
        for step in 0..self.slots.len() {
            let place = self.place(hash, step);
            if self.slots[place] == NONE {
                self.slots[place] = number;
                self.taken = self.taken.saturating_add(1);
                return;
            }
        }
    }

    // The place of the slot at a step of the way from a hash: round all slots, from the one at its remainder.
    fn place(&self, hash: u64, step: usize) -> usize
        requires { step < length self.now }
        ensures place { result ≡ place_on_way (length self.now) hash step }
        ensures within { result < length self.now }
    {
        let size = self.slots.len();
        let start = (hash % size as u64) as usize;
        let left = size - start;
        if step < left {
            start + step
        } else {
            step - left
        }
    }
}
