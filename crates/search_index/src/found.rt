//! Sets of objects, by their numbers.
ghost use Rattle.std.specs.Prelude.{◌≡◌, ◌&&◌, ◌++◌, ℕ, IfOk, not, true};
ghost use Rattle.search_index.specs.Found.{both_are, has, is_in};

use doc_tree::NoMemory;
use std::alloc::Global;
use std::marker::Model;

/// Numbers in rising order.
#[derive(Drop)]
pub(crate) struct Numbers {
    items: Vec<usize>,
}

impl Model for Numbers {
    ghost use Rattle.std.specs.Prelude.{List, ℕ};
    ghost use Rattle.std.specs.List.Sorted.{IsNonDecreasing};

    ghost Value = { List ℕ };

    ghost view = { λ n. n.items.items };

    ghost invariant = { λ n. IsNonDecreasing n.items.items };
}

impl Numbers {
    /// Some numbers, in any order, which are put in order where they stand.
    pub(crate) fn of(items: Vec<usize>) -> Numbers
        ensures { (x : ℕ) → is_in result x ≡ is_in items.items x }
    {
        let mut items = items;
        items.sort_unstable();
        Numbers { items }
    }

    /// The same numbers.
    pub(crate) fn copy(&self, alloc: Global) -> Result<Numbers, NoMemory>
        ensures { IfOk result (λ numbers. numbers ≡ self.now) }
    {
        Ok(Numbers {
            items: Vec::from_slice(alloc, &self.items)?,
        })
    }

    /// Whether it has a number.
    pub(crate) fn has(&self, number: usize) -> bool
        ensures { result ≡ is_in self.now number }
    {
        self.items.binary_search(&number).is_ok()
    }

    /// How many it has.
    pub(crate) fn len(&self) -> usize {
        self.items.len()
    }

    /// The numbers.
    pub(crate) fn as_slice(&self) -> &[usize]
        ensures { result.now ≡ self.now }
    {
        self.items.as_slice()
    }
}

/// Some of the objects of a scope: those of these numbers, or all others.
#[derive(Drop)]
pub(crate) struct Found {
    pub(crate) others: bool,
    pub(crate) numbers: Numbers,
}

impl Found {
    ghost use Rattle.search_index.specs.Found.{has, is_in};

    /// All objects.
    pub(crate) fn every(alloc: Global) -> Found
        ensures { (x : ℕ) → has result x ≡ true }
    {
        Found {
            others: true,
            numbers: Numbers::of(Vec::new(alloc)),
        }
    }

    /// The same objects.
    pub(crate) fn copy(&self, alloc: Global) -> Result<Found, NoMemory>
        ensures { IfOk result (λ found. (x : ℕ) → has found x ≡ has self.now x) }
    {
        Ok(Found {
            others: self.others,
            numbers: self.numbers.copy(alloc)?,
        })
    }

    /// The objects that aren't among these.
    pub(crate) fn turned(self) -> Found
        ensures { (x : ℕ) → has result x ≡ not (has self x) }
    {
        Found {
            others: !self.others,
            numbers: self.numbers,
        }
    }

    /// Whether an object is among them.
    pub(crate) fn has(&self, number: usize) -> bool
        ensures { result ≡ has self.now number }
    {
        self.numbers.has(number) != self.others
    }
}

/// The objects that are in both, of which the smaller list is gone through.
pub(crate) fn both(alloc: Global, one: Found, other: Found) -> Result<Found, NoMemory>
    ensures { IfOk result (λ found. (x : ℕ) → has found x ≡ (has one x && has other x)) }
{
    match (one.others, other.others) {
        (false, false) if one.numbers.len() <= other.numbers.len() => {
            found_among(alloc, &one.numbers, &other.numbers, true)
        }
        (false, false) => found_among(alloc, &other.numbers, &one.numbers, true),
        (false, true) => found_among(alloc, &one.numbers, &other.numbers, false),
        (true, false) => found_among(alloc, &other.numbers, &one.numbers, false),
        (true, true) => found_in_neither(alloc, &one.numbers, &other.numbers),
    }
}

/// The objects of some numbers that are among others, or of those that aren't.
fn found_among(
    alloc: Global,
    these: &Numbers,
    others: &Numbers,
    wanted: bool,
) -> Result<Found, NoMemory>
    ensures { IfOk result (λ found. (x : ℕ) → has found x ≡ (is_in these.now x && both_are (is_in others.now x) wanted)) }
{
    Ok(Found {
        others: false,
        numbers: kept(alloc, these, others, wanted)?,
    })
}

/// The objects of all numbers but those of both.
fn found_in_neither(alloc: Global, one: &Numbers, other: &Numbers) -> Result<Found, NoMemory>
    ensures { IfOk result (λ found. (x : ℕ) → has found x ≡ not (is_in (one.now ++ other.now) x)) }
{
    Ok(Found {
        others: true,
        numbers: either(alloc, one, other)?,
    })
}

/// Those of some numbers that are among others, or those that aren't.
fn kept(alloc: Global, these: &Numbers, others: &Numbers, wanted: bool) -> Result<Numbers, NoMemory>
    ensures { IfOk result (λ numbers. (x : ℕ) → is_in numbers x ≡ (is_in these.now x && both_are (is_in others.now x) wanted)) }
{
    let mut items = Vec::new(alloc);
    for number in these.as_slice() {
        if others.has(*number) == wanted {
            items.push(*number)?;
        }
    }
    Ok(Numbers::of(items))
}

/// The numbers of both.
fn either(alloc: Global, one: &Numbers, other: &Numbers) -> Result<Numbers, NoMemory>
    ensures { IfOk result (λ numbers. (x : ℕ) → is_in numbers x ≡ is_in (one.now ++ other.now) x) }
{
    let mut items = Vec::new(alloc);
    items.extend_from_slice(one.as_slice())?;
    items.extend_from_slice(other.as_slice())?;
    Ok(Numbers::of(items))
}
