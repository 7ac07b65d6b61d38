//! Texts under numbers that they keep.
ghost use Rattle.std.specs.Prelude.{◌≡◌, ◌≤◌, IsSome, OnErr, OnOk, [], length, option_copied, option_map};
ghost use Rattle.ordered_keys.specs.Keys.{Grows, Inserts, Removes, key_of};

use crate::posting::NONE;
use doc_tree::{NoMemory, Text};
use std::alloc::Global;
use std::marker::Model;

/// Texts, each under a number that it keeps as long as it is there, with numbers kept ahead. Contracts see the text under
/// each number, and how many more texts fit without memory.
#[derive(Drop)]
pub(crate) struct NumberedTexts {
    items: Vec<Option<Text>>,
    // The numbers under which there is no text.
    free: Vec<u32>,
}

impl Model for NumberedTexts {
    ghost use Rattle.std.specs.Prelude.{List, ℕ, length, vec_capacity};
    ghost use Rattle.std.specs.Coded.{coded_list, coded_ℕ};
    ghost use Rattle.ordered_keys.specs.Keys.{Keys, keys_code};

    ghost Value = { Keys (List ℕ) };

    ghost coded = { keys_code (coded_list coded_ℕ) };

    ghost use Rattle.search_index.specs.NumberedTexts.{AreNumbered};

    ghost view = { λ n. record { slots = n.items.items; room = length n.free.items } };

    ghost invariant = { λ n. AreNumbered n.items.items n.free.items (vec_capacity n.free) };
}

impl NumberedTexts {
    /// No text, and no room. It takes no memory.
    pub(crate) fn none(alloc: Global) -> NumberedTexts
        ensures { result ≡ record { slots = []; room = 0 } }
    {
        NumberedTexts {
            items: Vec::new(alloc),
            free: Vec::new(alloc),
        }
    }

    /// How many numbers there are, with a text and without.
    pub(crate) fn size(&self) -> usize
        ensures { result ≡ length self.now.slots }
    {
        self.items.len()
    }

    /// How many more texts fit without memory.
    pub(crate) fn room(&self) -> usize
        ensures { result ≡ self.now.room }
    {
        self.free.len()
    }

    /// The text under a number, if there is one.
    pub(crate) fn get(&self, number: usize) -> Option<&Text>
        ensures { option_copied result ≡ key_of self.now number }
    {
        match self.items.get(number) {
            Some(Some(text)) => Some(text),
            _ => None,
        }
    }

    /// Makes so many more numbers, and the memory that a text under each will want beside its bytes. Where there is no
    /// memory, or there would be 2^32 - 1 numbers or more (`NoMemory`), nothing changes.
    pub(crate) fn grow(&mut self, more: usize) -> Result<(), NoMemory>
        ensures ok { OnOk result (Grows self.old self.new more) }
        ensures err { OnErr result (self.new ≡ self.old) }
    {
        let Some(size) = self.items.len().checked_add(more) else {
            return Err(NoMemory);
        };
        if size >= NONE as usize {
            return Err(NoMemory);
        }
        self.items.reserve(more)?;
        self.free.reserve(size.saturating_sub(self.free.len()))?;
        for fresh in self.items.len()..size {
            self.items.push_reserved(None);
            self.free.push_reserved(fresh as u32);
        }
        Ok(())
    }

    /// Puts in a text, and tells its number. It takes no memory.
    pub(crate) fn insert(&mut self, text: Text) -> usize
        requires { 1 ≤ self.old.room }
        ensures { Inserts self.old self.new text result }
    {
        match self.free.pop() {
            Some(number) => {
                self.items[number as usize] = Some(text);
                number as usize
            }
            None => unreachable!(),
        }
    }

    /// Takes out the text under a number, which has one. It takes no memory.
    pub(crate) fn remove(&mut self, number: usize)
        requires { IsSome (key_of self.old number) }
        ensures { Removes self.old self.new number }
    {
        self.items[number] = None;
        self.free.push_reserved(number as u32);
    }
}
