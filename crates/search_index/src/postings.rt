//! Postings in one arena: each stands in the chain of its object and in that of its term.
ghost use Rattle.std.specs.Prelude.{◌≡◌, ◌+◌, ◌<◌, ◌≤◌, ◌↔◌, ℕ, List, IfOk, IsSome, IsTrue, OnOk, MatchOption, None, Some, [], length, slice_index_or};
ghost use Rattle.search_index.specs.Place.{no_number};
ghost use Rattle.search_index.specs.Places.{IsTaken};
ghost use Rattle.ordered_keys.specs.Numbers.{Among};
ghost use Rattle.search_index.specs.Chains.{IsLinked, first_in};
ghost use Rattle.search_index.specs.Net.{AddsAt, Has, HasNone, IsBehind, IsCut, IsListed, IsUnused, IsWide, Leads, Pads, Takes, TakesAt, Unlinks, Widens, changed_at, heads_without, held, links, owners, pairs, place_behind, used};
ghost use Rattle.search_index.specs.Posting.{with_before, with_next};

use crate::places::Places;
use crate::posting::{Link, NONE, Place, Posting, Side};
use doc_tree::NoMemory;
use std::alloc::Global;
use std::marker::Model;

/// Postings, each in the chain of its object and in that of its term. Contracts see the object and the term in each
/// place, and the places of each object in the order of its chain, but no link.
#[derive(Drop)]
pub(crate) struct Postings {
    items: Places,
    // The first place of each object's chain.
    objects: Vec<Place>,
    // The first place of each term's chain.
    terms: Vec<Place>,
}

impl Model for Postings {
    ghost use Rattle.search_index.specs.Net.{Net, net_code};

    ghost Value = { Net };

    ghost coded = { net_code };

    ghost use Rattle.search_index.specs.Net.{IsKept, net_of};

    ghost view = { λ p. net_of p.items p.objects.items p.terms.items };

    ghost invariant = { λ p. IsKept p.items p.objects.items p.terms.items };
}

impl Postings {
    /// No posting, and no room.
    pub(crate) fn none(alloc: Global) -> Postings
        ensures { result ≡ record { slots = []; capacity = 0; objects = 0; terms = 0; order = [] } }
    {
        Postings {
            items: Places::none(alloc),
            objects: Vec::new(alloc),
            terms: Vec::new(alloc),
        }
    }

    /// Makes room for so many more postings, and for the chains of so many objects and terms. There is none (`NoMemory`)
    /// where postings, objects or terms would be 2^32 - 1 or more.
    pub(crate) fn reserve(
        &mut self,
        postings: usize,
        objects: usize,
        terms: usize,
    ) -> Result<(), NoMemory>
        ensures same { Widens self.old self.new }
        ensures ok { OnOk result (IsWide self.new postings objects terms) }
    {
        pad(&mut self.objects, objects)?;
        pad(&mut self.terms, terms)?;
        self.items.reserve(postings)?;
        Ok(())
    }

    /// Puts in that an object has a term: behind this place in the chain of the object, or in front where that is none. It
    /// tells the place of the posting.
    pub(crate) fn join_behind(&mut self, object: usize, term: usize, before: Place) -> Place
        requires object { object < self.old.objects }
        requires term { term < self.old.terms }
        requires room { used self.old + 1 ≤ self.old.capacity }
        requires before { IsBehind self.old object before }
        ensures { AddsAt self.old self.new object term before result }
    {
        let next = place_behind(&self.items, &self.objects, object, before);
        let of_term = self.terms[term];
        let place = self.items.put(Posting {
            object: object as u32,
            term: term as u32,
            of_object: Link { before, next },
            of_term: Link {
                before: Place::none(),
                next: of_term,
            },
        });
        let here = Place::at(place);
        set_next(&mut self.items, Side::Object, before, here);
        set_before(&mut self.items, Side::Object, next, here);
        set_before(&mut self.items, Side::Term, of_term, here);
        set_head(&mut self.objects, object, before, here);
        self.terms[term] = here;
        here
    }

    /// Takes a posting of an object out, and gives its term, or nothing where the object has none.
    pub(crate) fn take(&mut self, object: usize) -> Option<usize>
        ensures { MatchOption result ((self.new ≡ self.old) × HasNone self.old object) (λ term. Takes self.old self.new object term) }
    {
        match first_of(&self.objects, object) {
            Some(place) => Some(self.take_at(place)),
            None => None,
        }
    }

    /// Takes out the posting in a place, and gives its term.
    pub(crate) fn take_at(&mut self, place: usize) -> usize
        requires { IsSome (held self.old place) }
        ensures { TakesAt self.old self.new place result }
    {
        let term = self.items.posting(place).term as usize;
        unlink(&mut self.items, &mut self.terms, Side::Term, place);
        unlink(&mut self.items, &mut self.objects, Side::Object, place);
        self.items.remove(place);
        term
    }

    /// The place behind another in the chain of an object, or the first place where that is none.
    pub(crate) fn after(&self, object: usize, before: Place) -> Place
        ensures next { (front back : List ℕ) → IsCut self.now object before front back → result ≡ first_in back }
        ensures listed { IsListed self.now object }
    {
        place_behind(&self.items, &self.objects, object, before)
    }

    /// The term of the posting in a place.
    pub(crate) fn term_at(&self, place: usize) -> usize
        requires { IsSome (held self.now place) }
        ensures { (object : ℕ) × (held self.now place ≡ Some (object, result)) }
    {
        self.items.posting(place).term as usize
    }

    /// Whether no object has a term.
    pub(crate) fn is_unused(&self, term: usize) -> bool
        ensures { IsTrue result ↔ IsUnused self.now term }
    {
        first_of(&self.terms, term).is_none()
    }

    /// The objects that have a term, in the order of its chain.
    pub(crate) fn objects_of(&self, alloc: Global, term: usize) -> Result<Vec<usize>, NoMemory>
        ensures { IfOk result (λ found. (object : ℕ) → Among found.items object ↔ Has self.now object term) }
    {
        others_of(alloc, &self.items, &self.terms, Side::Term, term)
    }

    /// The terms that an object has, in the order of its chain.
    pub(crate) fn terms_of(&self, alloc: Global, object: usize) -> Result<Vec<usize>, NoMemory>
        ensures { IfOk result (λ found. (term : ℕ) → Among found.items term ↔ Has self.now object term) }
    {
        others_of(alloc, &self.items, &self.objects, Side::Object, object)
    }

    /// Whether more objects than this have a term.
    pub(crate) fn is_longer(&self, term: usize, limit: usize) -> bool {
        let mut at = first_of(&self.terms, term);
        for _ in 0..limit {
            at = self.behind(at);
        }
        at.is_some()
    }

    /// Which of some terms the fewest objects have, where that is no more than this: their chains are gone along side by
    /// side until one ends. A term that isn't there has none.
    pub(crate) fn rarest(
        &self,
        alloc: Global,
        terms: &[Option<usize>],
        limit: usize,
    ) -> Result<Option<usize>, NoMemory> {
        let mut chains = Vec::new(alloc);
        for term in terms {
            chains.push(self.first_place(*term))?;
        }
        for _ in 0..=limit {
            if let Some(ended) = ended(&chains) {
                return Ok(Some(ended));
            }
            for at in chains.iter_mut() {
                *at = self.behind(*at);
            }
        }
        Ok(None)
    }

    /// The first place in the chain of a term.
    fn first_place(&self, term: Option<usize>) -> Option<usize> {
        match term {
            Some(term) => first_of(&self.terms, term),
            None => None,
        }
    }

    /// The place behind another in the chain of its term.
    fn behind(&self, place: Option<usize>) -> Option<usize> {
        match place {
            Some(place) => match self.items.get(place) {
                Some(posting) => posting.of_term.next.get(),
                None => None,
            },
            None => None,
        }
    }
}

/// The first chain that is at its end.
fn ended(chains: &[Option<usize>]) -> Option<usize> {
    for (number, at) in chains.iter().enumerate() {
        if at.is_none() {
            return Some(number);
        }
    }
    None
}

/// What stands at the other side of each posting of an owner, in the order of its chain.
fn others_of(
    alloc: Global,
    items: &Places,
    heads: &[Place],
    side: Side,
    owner: usize,
) -> Result<Vec<usize>, NoMemory>
    requires { IsLinked (links side items.now) (owners side (pairs items.now)) heads.now }
    ensures { IfOk result (λ found. (other : ℕ) → Among found.items other ↔ Leads side items.now owner other) }
{
    let mut found = Vec::new(alloc);
    let mut at = first_of(heads, owner);
    while let Some(place) = at {
        let posting = items.posting(place);
        found.push(posting.owner(side.other()))?;
        at = posting.link(side).next.get();
    }
    Ok(found)
}

/// Lets so many owners have a chain, where each has a number.
fn pad(heads: &mut Vec<Place>, size: usize) -> Result<(), NoMemory>
    ensures pads { Pads heads.old.items heads.new.items }
    ensures ok { OnOk result (size ≤ length heads.new.items) }
    ensures numbered { length heads.old.items ≤ no_number → length heads.new.items ≤ no_number }
{
    if size >= NONE as usize {
        return Err(NoMemory);
    }
    if heads.len() < size {
        heads.resize(size, Place::none())?;
    }
    Ok(())
}

/// The first place of a chain, if it has one.
fn first_of(heads: &[Place], owner: usize) -> Option<usize>
    ensures { result ≡ slice_index_or heads.now owner None }
{
    match heads.get(owner) {
        Some(first) => first.get(),
        None => None,
    }
}

/// The place behind another in the chain of an object, or the first place where that is none.
fn place_behind(items: &Places, objects: &[Place], object: usize, before: Place) -> Place
    ensures { result ≡ place_behind items.now objects.now object before }
{
    match before.get() {
        Some(place) => match items.get(place) {
            Some(posting) => posting.of_object.next,
            None => Place::none(),
        },
        None => match objects.get(object) {
            Some(first) => *first,
            None => Place::none(),
        },
    }
}

/// Puts a place behind another, if there is one.
fn set_next(items: &mut Places, side: Side, place: Place, next: Place)
    ensures { items.new ≡ changed_at items.old place (with_next side next) }
{
    if let Some(place) = place.get() {
        if let Some(posting) = items.get(place) {
            let changed = posting.with_next(side, next);
            items.write(place, changed);
        }
    }
}

/// Puts a place before another, if there is one.
fn set_before(items: &mut Places, side: Side, place: Place, before: Place)
    ensures { items.new ≡ changed_at items.old place (with_before side before) }
{
    if let Some(place) = place.get() {
        if let Some(posting) = items.get(place) {
            let changed = posting.with_before(side, before);
            items.write(place, changed);
        }
    }
}

/// Lets a chain begin with a place, where nothing stands before that.
fn set_head(heads: &mut Vec<Place>, owner: usize, before: Place, first: Place)
    requires { owner < length heads.old.items }
    ensures { heads.new.items ≡ heads_without heads.old.items owner before first }
{
    if before.get().is_none() {
        heads[owner] = first;
    }
}

/// Takes a place out of one of its chains.
fn unlink(items: &mut Places, heads: &mut Vec<Place>, side: Side, place: usize)
    requires there { IsTaken items.old place }
    requires linked { IsLinked (links side items.old) (owners side (pairs items.old)) heads.old.items }
    ensures { Unlinks side items.old items.new heads.old.items heads.new.items place }
{
    let posting = items.posting(place);
    let link = posting.link(side);
    let owner = posting.owner(side);
    set_next(items, side, link.before, link.next);
    set_before(items, side, link.next, link.before);
    set_head(heads, owner, link.before, link.next);
}
