//! Terms under numbers, which share the words that are alike.
ghost use Rattle.std.specs.Prelude.{◌≡◌, ◌≤◌, IfOk, IsSome, MatchOption, OnOk, Some, [], length, option_map};
ghost use Rattle.ordered_keys.specs.Keys.{AreBetween, IsAbsent, IsOnce, Numbers, key_of};
ghost use Rattle.search_index.specs.KeyOrder.{term_cmp, term_key};
ghost use Rattle.search_index.specs.Hashing.{is_term, term_hash, term_hash_at};
ghost use Rattle.search_index.specs.Terms.{MakesRoom, TakesOut, term_at, term_in};

use crate::hashed_numbers::{End, HashedNumbers, Hashes, Meant};
use crate::key::{MOST_NUMBERS, TermAt, TermNumbers};
use crate::words::Words;
use doc_tree::{NoMemory, Text};
use ordered_keys::{Arranged, Ranking, Sought};
use std::alloc::Global;
use std::cmp::Ordering;
use std::hash::{BuildHasher, Hasher, RandomState};
use std::marker::Model;

/// Terms, no two of them equal, each under a number that it keeps, in the order of their scopes, then of the bytes of
/// their fields and then of their values. Contracts see the term under each number, and how many more surely fit without
/// memory.
#[derive(Drop)]
pub(crate) struct Terms {
    numbers: Arranged<TermNumbers>,
    words: Words,
    // The numbers of the terms, by the hashes of their words' numbers.
    hashed: HashedNumbers,
    hasher: RandomState,
}

impl Model for Terms {
    ghost use Rattle.ordered_keys.specs.Keys.{Keys, keys_code};
    ghost use Rattle.search_index.specs.KeyOrder.{TermKey, term_code};

    ghost Value = { Keys TermKey };

    ghost coded = { keys_code term_code };

    ghost use Rattle.search_index.specs.Terms.{AreKept, terms_in};

    ghost view = { λ t. terms_in t.numbers t.words };

    ghost invariant = { λ t. AreKept t.numbers t.words t.hashed t.hasher };
}

impl Terms {
    /// No term, and no room. Words and terms are hashed by the hasher. It takes no memory.
    pub(crate) fn none(alloc: Global, hasher: RandomState) -> Terms
        ensures { result ≡ record { slots = []; room = 0 } }
    {
        Terms {
            numbers: Arranged::none(alloc),
            words: Words::none(alloc, hasher),
            hashed: HashedNumbers::none(alloc),
            hasher,
        }
    }

    /// How many numbers there are, with a term and without.
    pub(crate) fn size(&self) -> usize
        ensures { result ≡ length self.now.slots }
    {
        self.numbers.size()
    }

    /// Makes room for so many terms. The terms are as they were, and the room isn't less, also where there is no memory, or
    /// where there would be 2^32 - 1 numbers or more (`NoMemory`).
    pub(crate) fn reserve(&mut self, terms: usize) -> Result<(), NoMemory>
        ensures same { MakesRoom self.old self.new terms }
        ensures ok { OnOk result (terms ≤ self.new.room) }
    {
        // The field and the value of each term may be new.
        let Some(words) = terms.checked_mul(2) else {
            return Err(NoMemory);
        };
        let more = terms.saturating_sub(self.numbers.room());
        let Some(size) = self.numbers.size().checked_add(more) else {
            return Err(NoMemory);
        };
        if size > MOST_NUMBERS {
            return Err(NoMemory);
        }
        self.words.reserve(words)?;
        self.numbers.grow(more)?;
        if self.hashed.is_full_with(terms) {
            let (numbers, hasher) = (&self.numbers, self.hasher);
            self.hashed.begin_anew(&TermHashes { numbers, hasher })?;
        }
        Ok(())
    }

    /// The number of a term, which is put in where it isn't there. It takes no memory.
    pub(crate) fn number_of(&mut self, scope: u32, field: Text, value: Text) -> usize
        requires { 1 ≤ self.old.room }
        ensures { Numbers self.old self.new (term_key scope field value) result }
    {
        let sought = TermAt {
            scope,
            field: field.as_bytes(),
            value: value.as_bytes(),
        };
        match self.find(&sought) {
            Some(number) => {
                self.known();
                number
            }
            None => self.insert(scope, field, value),
        }
    }

    /// Puts in a term that isn't there.
    fn insert(&mut self, scope: u32, field: Text, value: Text) -> usize
        requires absent { IsAbsent term_cmp self.old (term_key scope field value) }
        requires room { 1 ≤ self.old.room }
        ensures { Numbers self.old self.new (term_key scope field value) result }
    {
        self.words.known();
        let term = TermNumbers {
            scope,
            field: self.words.take_in(field),
            value: self.words.take_in(value),
        };
        let number = self.numbers.insert(&ByWords { words: &self.words }, term);
        self.hashed
            .put(term_hash(self.hasher, &term), number as u32);
        number
    }

    /// Takes out the term under a number, which has one, with the words that no other term uses. It takes no memory.
    pub(crate) fn remove(&mut self, number: usize)
        requires { IsSome (key_of self.old number) }
        ensures { TakesOut self.old self.new number }
    {
        self.words.known();
        let term = *self.numbers.item(number);
        self.numbers.remove(&ByWords { words: &self.words }, number);
        self.words.release(term.field);
        self.words.release(term.value);
    }

    /// No two numbers have one term. A law: it does nothing.
    pub(crate) fn known(&self)
        ensures { IsOnce self.now }
    {
        let _ = &self.words;
    }

    /// The parts of the term under a number, if there is one.
    pub(crate) fn get(&self, number: usize) -> Option<TermAt>
        ensures { option_map term_at result ≡ key_of self.now number }
    {
        match self.numbers.get(number) {
            Some(term) => Some(parts_of(&self.words, term)),
            None => None,
        }
    }

    /// The number of a term, if it is there. A term is there only where its words are.
    pub(crate) fn find(&self, term: &TermAt) -> Option<usize>
        ensures { MatchOption result (IsAbsent term_cmp self.now (term_at term.now)) (λ number. key_of self.now number ≡ Some (term_at term.now)) }
    {
        self.words.known();
        let Some(field) = self.words.find(term.field) else {
            return None;
        };
        let Some(value) = self.words.find(term.value) else {
            return None;
        };
        let term_numbers = TermNumbers {
            scope: term.scope,
            field,
            value,
        };
        let sought = SoughtNumbers {
            numbers: &self.numbers,
            term: term_numbers,
        };
        match self
            .hashed
            .find(term_hash(self.hasher, &term_numbers), &sought)
        {
            End::Number(number) => Some(number as usize),
            End::FreeSlot => None,
            End::Begin => self.find_in_order(term),
        }
    }

    // The number of a term, if it is there, without the hashes.
    fn find_in_order(&self, term: &TermAt) -> Option<usize>
        ensures { MatchOption result (IsAbsent term_cmp self.now (term_at term.now)) (λ number. key_of self.now number ≡ Some (term_at term.now)) }
    {
        let words = &self.words;
        self.numbers.find(&SoughtTerm { words, term })
    }

    /// The numbers of the terms from one bound on and below the other, in the order of the terms. `NoMemory` where there is
    /// none for so many.
    pub(crate) fn between(
        &self,
        alloc: Global,
        low: &TermAt,
        high: &TermAt,
    ) -> Result<Vec<usize>, NoMemory>
        ensures { IfOk result (λ numbers. AreBetween term_cmp self.now (term_at low.now) (term_at high.now) numbers.items) }
    {
        let words = &self.words;
        let low = SoughtTerm { words, term: low };
        let high = SoughtTerm { words, term: high };
        self.numbers.between(alloc, &low, &high)
    }
}

/// The parts of a term, lent from the words.
fn parts_of<'a>(words: &'a Words, term: &TermNumbers) -> TermAt<'a>
    ensures { term_at result ≡ term_in words.now term.now }
{
    TermAt {
        scope: term.scope,
        field: words.word(term.field),
        value: words.word(term.value),
    }
}

/// The hash of a term, by the numbers of its scope and of its words (SipHash-1-3 with the hasher's keys).
fn term_hash(hasher: RandomState, term: &TermNumbers) -> u64
    ensures { result ≡ term_hash hasher term.now }
{
    let mut state = hasher.build_hasher();
    state.write_u32(term.scope);
    state.write_u32(term.field);
    state.write_u32(term.value);
    state.finish()
}

/// The hashes of terms.
#[derive(Drop)]
struct TermHashes<'a> {
    numbers: &'a Arranged<TermNumbers>,
    hasher: RandomState,
}

impl<'a> Hashes for TermHashes<'a> {
    ghost hash = { λ t. term_hash_at t.hasher t.numbers.now };

    fn size(&self) -> usize {
        self.numbers.size()
    }

    fn hash_at(&self, number: usize) -> Option<u64> {
        match self.numbers.get(number) {
            Some(term) => Some(term_hash(self.hasher, term)),
            None => None,
        }
    }
}

/// The numbers of a term that is looked for.
#[derive(Drop)]
struct SoughtNumbers<'a> {
    numbers: &'a Arranged<TermNumbers>,
    term: TermNumbers,
}

impl<'a> Meant for SoughtNumbers<'a> {
    ghost meant = { λ s number. is_term (item_of s.numbers.now number) s.term };

    fn is(&self, number: u32) -> bool {
        match self.numbers.get(number as usize) {
            Some(term) => is_same(term, &self.term),
            None => false,
        }
    }
}

ghost use Rattle.ordered_keys.specs.Arranged.{item_of};
ghost use Rattle.search_index.specs.Hashing.{is_same};

fn is_same(term: &TermNumbers, other: &TermNumbers) -> bool
    ensures { result ≡ is_same term.now other.now }
{
    term.value == other.value && term.field == other.field && term.scope == other.scope
}

/// The order of terms, by their words.
#[derive(Drop)]
struct ByWords<'a> {
    words: &'a Words,
}

impl<'a> Ranking<TermNumbers> for ByWords<'a> {
    ghost cmp = { λ r x y. term_cmp (term_in r.words.now x) (term_in r.words.now y) };

    fn compare(&self, item: &TermNumbers, other: &TermNumbers) -> Ordering {
        if item.scope == other.scope && item.field == other.field {
            // Terms of one field stand side by side: its word isn't looked at.
            let words = self.words;
            return words.word(item.value).cmp(words.word(other.value));
        }
        parts_of(self.words, item).order_to(&parts_of(self.words, other))
    }
}

/// A term that is looked for.
#[derive(Drop)]
struct SoughtTerm<'a> {
    words: &'a Words,
    term: &'a TermAt<'a>,
}

impl<'a> Sought<TermNumbers> for SoughtTerm<'a> {
    ghost standing = { λ s x. term_cmp (term_in s.words.now x) (term_at s.term.now) };

    fn standing_of(&self, item: &TermNumbers) -> Ordering {
        parts_of(self.words, item).order_to(self.term)
    }
}
