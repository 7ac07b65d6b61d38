//! How deep places lie: each deeper than all to which it leads, where no way leads in a circle.
ghost use Rattle.std.specs.Prelude.{◌≡◌, IfOk, IsTrue, count_by, length};
ghost use Rattle.std.specs.List.{list_any};
ghost use Rattle.resource_core.specs.Graph.{are_within};
ghost use Rattle.resource_core.specs.Searching.{IsOrderOf};

use crate::graph::{Places, falls, reached_from};
use doc_tree::NoMemory;
use std::alloc::Global;

/// How deep each place lies, or a flag for each, which says whether it lies on a cycle.
#[derive(Drop)]
pub(crate) enum Order {
    Depths(Vec<usize>),
    Cycles(Vec<bool>),
}

/// The order of places. Where there is no cycle, it takes a time that grows with the places and their ways: they are
/// numbered from the last ones on, and the numbers checked. Where the check fails, each place is searched from.
pub(crate) fn order_of(alloc: Global, nexts: &[Places]) -> Result<Order, NoMemory>
    requires { IsTrue (are_within (length nexts.now) nexts.now) }
    ensures { IfOk result (IsOrderOf nexts.now) }
{
    let depths = numbered(alloc, nexts)?;
    if falls(nexts, &depths) {
        Ok(Order::Depths(depths))
    } else {
        searched(alloc, nexts)
    }
}

/// Searches from each place: it lies on a cycle where it is reached from itself, and where none does, it is as deep as the
/// number of places that it reaches.
fn searched(alloc: Global, nexts: &[Places]) -> Result<Order, NoMemory>
    requires { IsTrue (are_within (length nexts.now) nexts.now) }
    ensures { IfOk result (IsOrderOf nexts.now) }
{
    let mut cycles = Vec::new(alloc);
    let mut counts = Vec::new(alloc);
    for place in 0..nexts.len() {
        let reached = reached_from(alloc, nexts, place)?;
        cycles.push(reached[place])?;
        counts.push(count_set(&reached))?;
    }
    if is_any_set(&cycles) {
        Ok(Order::Cycles(cycles))
    } else {
        Ok(Order::Depths(counts))
    }
}

fn count_set(flags: &[bool]) -> usize
    ensures { result ≡ count_by (λ b. b) flags.now }
{
    flags.iter().filter(|flag| **flag).count()
}

fn is_any_set(flags: &[bool]) -> bool
    ensures { result ≡ list_any (λ b. b) flags.now }
{
    for flag in flags {
        if *flag {
            return true;
        }
    }
    false
}

/// A number for each place: first for those that lead nowhere, then for those that lead only to numbered ones, and so on.
/// The places that lead into a cycle keep the number 0.
fn numbered(alloc: Global, nexts: &[Places]) -> Result<Vec<usize>, NoMemory>
    ensures { IfOk result (λ numbers. length numbers.items ≡ length nexts.now) }
{
    let befores = befores_of(alloc, nexts)?;
    let mut left = lengths_of(alloc, nexts)?;
    let mut ends = ends_of(alloc, &left)?;
    let mut numbers = vec![in alloc; 0usize; nexts.len()]?;
    number_each(&befores, &mut left, &mut ends, &mut numbers)?;
    Ok(numbers)
}

/// Numbers the ends, one by one, and what becomes an end by that.
fn number_each(
    befores: &[Vec<usize>],
    left: &mut Vec<usize>,
    ends: &mut Vec<usize>,
    numbers: &mut [usize],
) -> Result<(), NoMemory> {
    for number in 0..numbers.len() {
        let Some(place) = ends.pop() else {
            break;
        };
        if place < numbers.len() {
            numbers[place] = number;
        }
        if let Some(befores) = befores.get(place) {
            take_from(befores, left, ends)?;
        }
    }
    Ok(())
}

/// The places that lead to each.
fn befores_of(alloc: Global, nexts: &[Places]) -> Result<Vec<Vec<usize>>, NoMemory> {
    let mut befores = no_befores(alloc, nexts.len())?;
    for (place, nexts) in nexts.iter().enumerate() {
        add_before(place, nexts.as_slice(), &mut befores)?;
    }
    Ok(befores)
}

fn no_befores(alloc: Global, count: usize) -> Result<Vec<Vec<usize>>, NoMemory> {
    let mut befores = Vec::with_capacity(alloc, count)?;
    for _ in 0..count {
        befores.push(Vec::new(alloc))?;
    }
    Ok(befores)
}

fn add_before(
    place: usize,
    nexts: &[usize],
    befores: &mut Vec<Vec<usize>>,
) -> Result<(), NoMemory> {
    for next in nexts {
        if let Some(before) = befores.get_mut(*next) {
            before.push(place)?;
        }
    }
    Ok(())
}

/// How many ways each place has.
fn lengths_of(alloc: Global, nexts: &[Places]) -> Result<Vec<usize>, NoMemory> {
    let mut lengths = Vec::with_capacity(alloc, nexts.len())?;
    for nexts in nexts {
        lengths.push(nexts.len())?;
    }
    Ok(lengths)
}

/// The places that have no way.
fn ends_of(alloc: Global, lengths: &[usize]) -> Result<Vec<usize>, NoMemory> {
    let mut ends = Vec::new(alloc);
    for (place, length) in lengths.iter().enumerate() {
        if *length == 0 {
            ends.push(place)?;
        }
    }
    Ok(ends)
}

/// One way less is left for each of these places, and those that have none left are ends.
fn take_from(
    befores: &[usize],
    left: &mut Vec<usize>,
    ends: &mut Vec<usize>,
) -> Result<(), NoMemory> {
    for before in befores {
        if *before < left.len() {
            left[*before] = left[*before].saturating_sub(1);
            if left[*before] == 0 {
                ends.push(*before)?;
            }
        }
    }
    Ok(())
}
