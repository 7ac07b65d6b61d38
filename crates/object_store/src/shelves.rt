//! Shelves, each with objects by the names that they have on it.
ghost use Rattle.std.specs.Prelude.{IsTrue, true, false, ◌≡◌, ◌&&◌, ◌||◌, ◌<◌, [], List, ℕ, None, Some, IfOk, OnOk, bytes_eq, cond, is_some, option_copied, string_bytes};
ghost use Rattle.indexmap.specs.IndexMap.{get_by_text};
ghost use Rattle.object_store.specs.Kept.{HasRoom, has, on_shelf, object_on};

use crate::listing::add_name;
use compact_json::CompactJson;
use doc_tree::{NoMemory, Text};
use indexmap::IndexMap;
use std::alloc::Global;
use std::collections::BTreeSet;
use std::hash::RandomState;

/// Objects by the names that they have on one shelf.
pub(crate) type Shelf = IndexMap<String, CompactJson, RandomState>;

/// Shelves by their words. A shelf goes with the last object on it.
pub(crate) type Shelves = IndexMap<String, Shelf, RandomState>;

/// The object of this name on the shelf of this word.
pub(crate) fn find<'a>(shelves: &'a Shelves, word: &str, name: &str) -> Option<&'a CompactJson>
    ensures { option_copied result ≡ on_shelf shelves.now word.now name.now }
{
    match shelves.get(word) {
        Some(shelf) => shelf.get(name),
        None => None,
    }
}

/// Takes the object of this name off the shelf of this word. It takes no memory.
pub(crate) fn take(shelves: &mut Shelves, word: &str, name: &str) -> Option<CompactJson>
    ensures taken { result ≡ on_shelf shelves.old word.now name.now }
    ensures left { (other : List ℕ) → (its : List ℕ) →
        on_shelf shelves.new other its ≡ cond (bytes_eq word.now other && bytes_eq name.now its) None (on_shelf shelves.old other its) }
{
    let taken = take_off(shelves, word, name);
    if taken.is_some() {
        clear_away(shelves, word);
    }
    taken
}

fn take_off(shelves: &mut Shelves, word: &str, name: &str) -> Option<CompactJson>
    ensures taken { result ≡ on_shelf shelves.old word.now name.now }
    ensures left { (other : List ℕ) → (its : List ℕ) →
        on_shelf shelves.new other its ≡ cond (bytes_eq word.now other && bytes_eq name.now its) None (on_shelf shelves.old other its) }
{
    match shelves.get_mut(word) {
        Some(shelf) => shelf.swap_remove(name),
        None => None,
    }
}

fn clear_away(shelves: &mut Shelves, word: &str)
    ensures { (other : List ℕ) → (its : List ℕ) → on_shelf shelves.new other its ≡ on_shelf shelves.old other its }
{
    if is_bare(shelves, word) {
        shelves.swap_remove(word);
    }
}

fn is_bare(shelves: &Shelves, word: &str) -> bool
    ensures { result ≡ true → (its : List ℕ) → on_shelf shelves.now word.now its ≡ None }
{
    match shelves.get(word) {
        Some(shelf) => shelf.is_empty(),
        None => false,
    }
}

/// Makes room for one more object on the shelf of this word.
pub(crate) fn make_room(
    shelves: &mut Shelves,
    alloc: Global,
    hasher: RandomState,
    word: &str,
) -> Result<(), NoMemory>
    ensures same { (other : List ℕ) → (its : List ℕ) → on_shelf shelves.new other its ≡ on_shelf shelves.old other its }
    ensures room { OnOk result (HasRoom shelves.new word.now) }
{
    if shelves.contains_key(word) {
        widen(shelves, word)
    } else {
        add_shelf(shelves, alloc, hasher, word)
    }
}

fn widen(shelves: &mut Shelves, word: &str) -> Result<(), NoMemory>
    requires { IsTrue (is_some (get_by_text shelves.old word.now)) }
    ensures same { (other : List ℕ) → (its : List ℕ) → on_shelf shelves.new other its ≡ on_shelf shelves.old other its }
    ensures room { OnOk result (HasRoom shelves.new word.now) }
{
    match shelves.get_mut(word) {
        Some(shelf) => {
            shelf.reserve(1)?;
            Ok(())
        }
        None => Ok(()),
    }
}

fn add_shelf(
    shelves: &mut Shelves,
    alloc: Global,
    hasher: RandomState,
    word: &str,
) -> Result<(), NoMemory>
    requires { is_some (get_by_text shelves.old word.now) ≡ false }
    ensures same { (other : List ℕ) → (its : List ℕ) → on_shelf shelves.new other its ≡ on_shelf shelves.old other its }
    ensures room { OnOk result (HasRoom shelves.new word.now) }
{
    let word = String::from_str(alloc, word)?;
    let shelf = IndexMap::with_capacity_and_hasher(alloc, 1, hasher)?;
    drop(shelves.insert(word, shelf)?);
    Ok(())
}

/// Puts an object on the shelf of this word. It takes no memory.
pub(crate) fn put_on(shelves: &mut Shelves, word: &str, name: String, object: CompactJson)
    requires { HasRoom shelves.old word.now }
    ensures { (other : List ℕ) → (its : List ℕ) →
        on_shelf shelves.new other its ≡ cond (bytes_eq word.now other && bytes_eq (string_bytes name) its) (Some object) (on_shelf shelves.old other its) }
{
    if let Some(shelf) = shelves.get_mut(word) {
        drop(shelf.insert(name, object));
    }
}

/// Adds the names on the shelf of this word to others.
pub(crate) fn add_names(
    alloc: Global,
    shelves: &Shelves,
    word: &str,
    names: &mut BTreeSet<Text>,
) -> Result<(), NoMemory>
    ensures { OnOk result ((name : List ℕ) → has names.new name ≡ (has names.old name || is_some (on_shelf shelves.now word.now name))) }
{
    match shelves.get(word) {
        Some(shelf) => add_names_on(alloc, shelf, names),
        None => Ok(()),
    }
}

fn add_names_on(alloc: Global, shelf: &Shelf, names: &mut BTreeSet<Text>) -> Result<(), NoMemory>
    ensures { OnOk result ((name : List ℕ) → has names.new name ≡ (has names.old name || is_some (get_by_text shelf.now name))) }
{
    for (name, _) in shelf {
        add_name(alloc, name.as_str(), names)?;
    }
    Ok(())
}

/// An equal set of shelves with memory of its own.
pub(crate) fn copy_shelves(
    alloc: Global,
    hasher: RandomState,
    shelves: &Shelves,
) -> Result<Shelves, NoMemory>
    ensures { IfOk result (λ copy. (word : List ℕ) → (name : List ℕ) → on_shelf copy word name ≡ on_shelf shelves.now word name) }
{
    let mut made = IndexMap::with_capacity_and_hasher(alloc, shelves.len(), hasher)?;
    add_shelves(alloc, hasher, shelves, &mut made).and(Ok(made))
}

// Adds a copy of each shelf where there are none.
fn add_shelves(
    alloc: Global,
    hasher: RandomState,
    shelves: &Shelves,
    made: &mut Shelves,
) -> Result<(), NoMemory>
    requires { made.old.entries ≡ [] }
    ensures { OnOk result ((word : List ℕ) → (name : List ℕ) → on_shelf made.new word name ≡ on_shelf shelves.now word name) }
{
    for (word, shelf) in shelves {
        let word = String::from_str(alloc, word.as_str())?;
        keep_shelf(made, word, copy_shelf(alloc, hasher, shelf)?)?;
    }
    Ok(())
}

fn copy_shelf(alloc: Global, hasher: RandomState, shelf: &Shelf) -> Result<Shelf, NoMemory>
    ensures { IfOk result (λ copy. (name : List ℕ) → get_by_text copy name ≡ get_by_text shelf.now name) }
{
    let mut made = IndexMap::with_capacity_and_hasher(alloc, shelf.len(), hasher)?;
    add_copies(alloc, shelf, &mut made).and(Ok(made))
}

// Adds a copy of each object to a shelf that has none.
fn add_copies(alloc: Global, shelf: &Shelf, made: &mut Shelf) -> Result<(), NoMemory>
    requires { made.old.entries ≡ [] }
    ensures { OnOk result ((name : List ℕ) → get_by_text made.new name ≡ get_by_text shelf.now name) }
{
    for (name, object) in shelf {
        keep(
            made,
            String::from_str(alloc, name.as_str())?,
            object.copy(alloc)?,
        )?;
    }
    Ok(())
}

fn keep(shelf: &mut Shelf, name: String, object: CompactJson) -> Result<(), NoMemory>
    ensures { OnOk result ((other : List ℕ) →
        get_by_text shelf.new other ≡ cond (bytes_eq (string_bytes name) other) (Some object) (get_by_text shelf.old other)) }
{
    drop(shelf.insert(name, object)?);
    Ok(())
}

fn keep_shelf(shelves: &mut Shelves, word: String, shelf: Shelf) -> Result<(), NoMemory>
    ensures { OnOk result ((other : List ℕ) →
        get_by_text shelves.new other ≡ cond (bytes_eq (string_bytes word) other) (Some shelf) (get_by_text shelves.old other)) }
{
    drop(shelves.insert(word, shelf)?);
    Ok(())
}
