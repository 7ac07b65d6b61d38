//! Postings in the places of one vector, 24 bytes each: a place that is freed serves again.
ghost use Rattle.std.specs.Prelude.{◌≡◌, ◌≢◌, ◌+◌, ◌<◌, ◌≤◌, [], IfSome, None, OnOk, Some, option_copied};
ghost use Rattle.search_index.specs.Place.{no_number};
ghost use Rattle.search_index.specs.Places.{HasRoomFor, IsTaken, Updates, get, taken_count, with_value};

use crate::posting::{NONE, Place, Posting};
use doc_tree::NoMemory;
use std::alloc::Global;
use std::marker::Model;

/// Postings by their places. Contracts see the posting in each place that is taken, and how many fit without memory.
#[derive(Drop)]
pub(crate) struct Places {
    items: Vec<Posting>,
    // The first free place. Each leads to the next by its object's link, and has no object.
    free: Place,
    // How many places are taken.
    taken: usize,
}

impl Model for Places {
    ghost use Rattle.std.specs.Prelude.{vec_capacity};
    ghost use Rattle.search_index.specs.Places as specs;

    ghost Value = { specs.Places };

    ghost use Rattle.search_index.specs.Places.{IsStored, places_of};

    ghost view = { λ p. places_of p.items.items (vec_capacity p.items) };

    ghost invariant = { λ p. IsStored p.items.items p.taken p.free };
}

impl Places {
    /// No posting, and no room. It takes no memory.
    pub(crate) fn none(alloc: Global) -> Places
        ensures { result ≡ record { slots = []; capacity = 0 } }
    {
        Places {
            items: Vec::new(alloc),
            free: Place::none(),
            taken: 0,
        }
    }

    /// Makes room for so many more postings. There is none (`NoMemory`) where they would be 2^32 - 1 or more.
    pub(crate) fn reserve(&mut self, more: usize) -> Result<(), NoMemory>
        ensures room { OnOk result (HasRoomFor self.new more) }
        ensures capacity { self.old.capacity ≤ self.new.capacity }
        ensures rest_kept { self.new ≡ record { slots = self.old.slots; capacity = self.new.capacity } }
    {
        match self.taken.checked_add(more) {
            Some(all) if all < NONE as usize => {
                self.items.reserve(all.saturating_sub(self.items.len()))?;
                Ok(())
            }
            _ => Err(NoMemory),
        }
    }

    /// The posting in a place, if it is taken.
    pub(crate) fn get(&self, place: usize) -> Option<&Posting>
        ensures value { option_copied result ≡ get self.now place }
        ensures object { IfSome result (λ x. x.now.object ≢ no_number) }
    {
        match self.items.get(place) {
            Some(posting) if posting.object != NONE => Some(posting),
            _ => None,
        }
    }

    /// The posting in a place that is taken.
    pub(crate) fn posting(&self, place: usize) -> &Posting
        requires { IsTaken self.now place }
        ensures { get self.now place ≡ Some result.now }
    {
        &self.items[place]
    }

    /// Puts a posting into a free place, and tells the place. It takes no memory.
    pub(crate) fn put(&mut self, posting: Posting) -> usize
        requires room { HasRoomFor self.old 1 }
        requires object { posting.object ≢ no_number }
        ensures was_free { get self.old result ≡ None }
        ensures updates { Updates self.old self.new result (Some posting) }
        ensures count { taken_count self.new ≡ taken_count self.old + 1 }
        ensures numbered { result < no_number }
        ensures capacity { self.new.capacity ≡ self.old.capacity }
    {
        self.taken += 1;
        match self.free.get() {
            Some(place) => {
                self.free = self.items[place].of_object.next;
                self.items[place] = posting;
                place
            }
            None => {
                let place = self.items.len();
                self.items.push_reserved(posting);
                place
            }
        }
    }

    /// Writes another posting into a place that is taken.
    pub(crate) fn write(&mut self, place: usize, posting: Posting)
        requires taken { IsTaken self.old place }
        requires object { posting.object ≢ no_number }
        ensures { self.new ≡ with_value self.old place posting }
    {
        self.items[place] = posting;
    }

    /// Frees a place that is taken.
    pub(crate) fn remove(&mut self, place: usize)
        requires { IsTaken self.old place }
        ensures updates { Updates self.old self.new place None }
        ensures count { taken_count self.new + 1 ≡ taken_count self.old }
        ensures capacity { self.new.capacity ≡ self.old.capacity }
    {
        self.items[place] = Posting::freed(self.free);
        self.free = Place::at(place);
        self.taken -= 1;
    }
}
