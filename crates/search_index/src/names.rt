//! The names of the objects that were found.
ghost use Rattle.std.specs.Prelude.{◌≡◌, ◌≢◌, ◌+◌, ℕ, List, IfOk, IsTrue, MatchOption, Some, option_copied};
ghost use Rattle.std.specs.Cmp.Lexicographic.{slice_cmp};
ghost use Rattle.std.specs.List.Sorted.{IsStrictlySortedBy};
ghost use Rattle.std.specs.Ordering.{nat_cmp};
ghost use Rattle.search_index.specs.declared.key.ObjectKey.{ObjectKey as Key};
ghost use Rattle.ordered_keys.specs.Numbers.{Among};
ghost use Rattle.search_index.specs.Found.{has};
ghost use Rattle.search_index.specs.KeyOrder.{object_key};
ghost use Rattle.ordered_keys.specs.Keys.{key_of};
ghost use Rattle.search_index.specs.Names.{lists_name};
ghost use Rattle.search_index.specs.Seeking.{AreNames};

use crate::found::Found;
use crate::key::{ObjectAt, ObjectKey};
use doc_tree::{NoMemory, Text, Texts};
use ordered_keys::Ordered;
use std::alloc::Global;

/// The names of the objects of a scope that were found, in any order. `next` is the number behind the scope's. Where all
/// but some were found the objects of the scope are gone through, and else those that were found.
pub(crate) fn names_of(
    alloc: Global,
    objects: &Ordered<ObjectKey>,
    scope: u32,
    next: u32,
    found: &Found,
) -> Result<Vec<Text>, NoMemory>
    requires { next ≡ scope + 1 }
    ensures { IfOk result (λ names. AreNames objects.now scope found.now names.items) }
{
    if !found.others {
        return names_among(alloc, objects, scope, found.numbers.as_slice(), found);
    }
    let low = ObjectAt { scope, name: &[] };
    let high = ObjectAt {
        scope: next,
        name: &[],
    };
    let numbers = objects.between(alloc, &low, &high)?;
    names_among(alloc, objects, scope, &numbers, found)
}

/// The names of the objects of a scope that were found, which are among these.
fn names_among(
    alloc: Global,
    objects: &Ordered<ObjectKey>,
    scope: u32,
    numbers: &[usize],
    found: &Found,
) -> Result<Vec<Text>, NoMemory>
    requires { (i : ℕ) (x : Key) → key_of objects.now i ≡ Some x → x.scope ≡ scope → IsTrue (has found.now i) → Among numbers.now i }
    ensures { IfOk result (λ names. AreNames objects.now scope found.now names.items) }
{
    let mut names = Vec::new(alloc);
    for number in numbers {
        if found.has(*number) {
            if let Some(name) = name_in(objects, scope, *number) {
                names.push(name.copy(alloc)?)?;
            }
        }
    }
    Ok(names)
}

/// The name of an object of a scope.
fn name_in(objects: &Ordered<ObjectKey>, scope: u32, number: usize) -> Option<&Text>
    ensures { MatchOption (option_copied result) ((name : List ℕ) → key_of objects.now number ≢ Some (object_key scope name)) (λ name. key_of objects.now number ≡ Some (object_key scope name)) }
{
    match objects.get(number) {
        Some(key) if key.scope == scope => Some(&key.name),
        _ => None,
    }
}

/// Names in the order of their bytes, each once: they are put in order where they stand.
pub(crate) fn in_order(names: Vec<Text>) -> Texts
    ensures rising { IsStrictlySortedBy (slice_cmp nat_cmp) result }
    ensures members { (name : List ℕ) → lists_name result name ≡ lists_name names.items name }
{
    let mut names = names;
    names.sort_unstable();
    names.dedup();
    Texts::of(names)
}
