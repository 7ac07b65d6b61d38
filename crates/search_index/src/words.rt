//! Words, each once, under numbers of 32 bits, with how often each is used.
ghost use Rattle.std.specs.Prelude.{◌≡◌, ◌+◌, ◌<◌, ◌≤◌, ◌^◌, ℕ, IsSome, MatchOption, OnOk, Some, [], length};
ghost use Rattle.ordered_keys.specs.Keys.{key_of};
ghost use Rattle.search_index.specs.Words.{HasNoWord, IsCounted, PadsUses, Releases, SameWords, TakesIn, is_word, uses_at, word_at};
ghost use Rattle.search_index.specs.Hashing.{hash_of, word_hash_at};

use crate::hashed_numbers::{End, HashedNumbers, Hashes, Meant};
use crate::key::MOST_NUMBERS;
use crate::numbered_texts::NumberedTexts;
use doc_tree::{NoMemory, Text};
use std::alloc::Global;
use std::hash::{BuildHasher, Hasher, RandomState};
use std::marker::Model;

/// Words, each of which is kept once and as long as it is used. Contracts see the word under each number, how often it is
/// used, and how many more words fit without memory.
#[derive(Drop)]
pub(crate) struct Words {
    texts: NumberedTexts,
    // How often the word under each number is used.
    uses: Vec<usize>,
    // The numbers of the words, by the words' hashes.
    hashed: HashedNumbers,
    hasher: RandomState,
}

impl Model for Words {
    ghost use Rattle.search_index.specs.Words.{Vocabulary, vocabulary_code};

    ghost Value = { Vocabulary };

    ghost coded = { vocabulary_code };

    ghost use Rattle.search_index.specs.Words.{AreWords};

    ghost view = { λ w. record { texts = w.texts; uses = w.uses.items } };

    ghost invariant = { λ w. AreWords (record { texts = w.texts; uses = w.uses.items }) w.hashed w.hasher };
}

impl Words {
    /// No word, and no room. It takes no memory.
    pub(crate) fn none(alloc: Global, hasher: RandomState) -> Words
        ensures { result ≡ record { texts = record { slots = []; room = 0 }; uses = [] } }
    {
        Words {
            texts: NumberedTexts::none(alloc),
            uses: Vec::new(alloc),
            hashed: HashedNumbers::none(alloc),
            hasher,
        }
    }

    /// Each number with a word is used and no other, and no two have one word. A law: it does nothing.
    pub(crate) fn known(&self)
        ensures { IsCounted self.now }
    {
        let _ = &self.uses;
    }

    /// How many more words fit without memory.
    pub(crate) fn room(&self) -> usize
        ensures { result ≡ self.now.texts.room }
    {
        self.texts.room()
    }

    /// The bytes of the word under a number: none where there is no word.
    pub(crate) fn word(&self, number: u32) -> &[u8]
        ensures { result.now ≡ word_at self.now number }
    {
        match self.texts.get(number as usize) {
            Some(text) => text.as_bytes(),
            None => &[],
        }
    }

    /// Makes room for so many words. The words and their uses are as they were, and the room isn't less, also where there
    /// is no memory, or where there would be 2^32 - 1 numbers or more (`NoMemory`).
    pub(crate) fn reserve(&mut self, words: usize) -> Result<(), NoMemory>
        ensures same { SameWords self.old self.new }
        ensures ok { OnOk result (words ≤ self.new.texts.room) }
    {
        let more = words.saturating_sub(self.texts.room());
        let Some(size) = self.texts.size().checked_add(more) else {
            return Err(NoMemory);
        };
        if size > MOST_NUMBERS {
            return Err(NoMemory);
        }
        pad(&mut self.uses, size)?;
        self.texts.grow(more)?;
        if self.hashed.is_full_with(words) {
            let (texts, hasher) = (&self.texts, self.hasher);
            self.hashed.begin_anew(&WordHashes { texts, hasher })?;
        }
        Ok(())
    }

    /// The number of a word, if it is there.
    pub(crate) fn find(&self, word: &[u8]) -> Option<u32>
        ensures { MatchOption result (HasNoWord self.now word.now) (λ number. key_of self.now.texts number ≡ Some word.now) }
    {
        let texts = &self.texts;
        match self
            .hashed
            .find(hash_of(self.hasher, word), &SoughtWord { texts, word })
        {
            End::Number(number) => Some(number),
            End::FreeSlot => None,
            End::Begin => self.find_by_looking(word),
        }
    }

    // The number of a word, if it is there: each word is looked at.
    fn find_by_looking(&self, word: &[u8]) -> Option<u32>
        ensures { MatchOption result (HasNoWord self.now word.now) (λ number. key_of self.now.texts number ≡ Some word.now) }
    {
        let texts = &self.texts;
        let sought = SoughtWord { texts, word };
        for number in 0..texts.size() {
            if sought.is(number as u32) {
                return Some(number as u32);
            }
        }
        None
    }

    /// The number of a word, which is put in where it isn't there, and is used once more. It takes no memory.
    pub(crate) fn take_in(&mut self, text: Text) -> u32
        requires room { 1 ≤ self.old.texts.room }
        requires uses { (i : ℕ) → uses_at self.old i < 2 ^ 63 }
        ensures { TakesIn self.old self.new text result }
    {
        let found = self.find(text.as_bytes());
        let hasher = self.hasher;
        let number = number_of(&mut self.texts, &mut self.hashed, hasher, text, found);
        self.uses[number] += 1;
        number as u32
    }

    /// Takes back a use of a word, and takes the word out where it was the last one. It takes no memory.
    pub(crate) fn release(&mut self, number: u32)
        requires { IsSome (key_of self.old.texts number) }
        ensures { Releases self.old self.new number }
    {
        let number = number as usize;
        self.uses[number] -= 1;
        if self.uses[number] == 0 {
            self.texts.remove(number);
        }
    }
}

/// The number of a word that was found, or else of one that is put in.
fn number_of(
    texts: &mut NumberedTexts,
    hashed: &mut HashedNumbers,
    hasher: RandomState,
    text: Text,
    found: Option<u32>,
) -> usize
    requires room { 1 ≤ texts.old.room }
    requires few { length texts.old.slots ≤ 4294967294 }
    requires once { IsOnce texts.old }
    requires found { MatchOption found ((i : ℕ) → key_of texts.old i ≢ Some text) (λ number. key_of texts.old number ≡ Some text) }
    requires met { AreMet (word_hash_at hasher texts.old) hashed.old }
    ensures numbers { Numbers texts.old texts.new text result }
    ensures met { AreMet (word_hash_at hasher texts.new) hashed.new }
{
    match found {
        Some(number) => {
            drop(text);
            number as usize
        }
        None => put_in(texts, hashed, hasher, text),
    }
}

/// Puts in a word that isn't there, and its number by its hash.
fn put_in(
    texts: &mut NumberedTexts,
    hashed: &mut HashedNumbers,
    hasher: RandomState,
    text: Text,
) -> usize
    requires room { 1 ≤ texts.old.room }
    requires few { length texts.old.slots ≤ 4294967294 }
    requires met { AreMet (word_hash_at hasher texts.old) hashed.old }
    ensures inserts { Inserts texts.old texts.new text result }
    ensures met { AreMet (word_hash_at hasher texts.new) hashed.new }
{
    let hash = hash_of(hasher, text.as_bytes());
    let number = texts.insert(text);
    hashed.put(hash, number as u32);
    number
}

ghost use Rattle.std.specs.Prelude.{◌≢◌};
ghost use Rattle.ordered_keys.specs.Keys.{Inserts, IsOnce, Numbers};
ghost use Rattle.search_index.specs.HashedNumbers.{AreMet};

/// The hash of a word (SipHash-1-3 with the hasher's keys).
fn hash_of(hasher: RandomState, word: &[u8]) -> u64
    ensures { result ≡ hash_of hasher word.now }
{
    let mut state = hasher.build_hasher();
    state.write(word);
    state.finish()
}

/// The hashes of words.
#[derive(Drop)]
struct WordHashes<'a> {
    texts: &'a NumberedTexts,
    hasher: RandomState,
}

impl<'a> Hashes for WordHashes<'a> {
    ghost hash = { λ w. word_hash_at w.hasher w.texts.now };

    fn size(&self) -> usize {
        self.texts.size()
    }

    fn hash_at(&self, number: usize) -> Option<u64> {
        match self.texts.get(number) {
            Some(text) => Some(hash_of(self.hasher, text.as_bytes())),
            None => None,
        }
    }
}

/// A word that is looked for.
#[derive(Drop)]
struct SoughtWord<'a> {
    texts: &'a NumberedTexts,
    word: &'a [u8],
}

impl<'a> Meant for SoughtWord<'a> {
    ghost meant = { λ s number. is_word (key_of s.texts.now number) s.word.now };

    fn is(&self, number: u32) -> bool {
        match self.texts.get(number as usize) {
            Some(text) => text.as_bytes() == self.word,
            None => false,
        }
    }
}

/// Lets so many words be used.
fn pad(uses: &mut Vec<usize>, size: usize) -> Result<(), NoMemory>
    ensures pads { PadsUses uses.old.items uses.new.items }
    ensures ok { OnOk result (size ≤ length uses.new.items) }
{
    if uses.len() < size {
        uses.resize(size, 0)?;
    }
    Ok(())
}
