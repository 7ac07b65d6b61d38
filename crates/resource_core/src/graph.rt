//! Places that lead to places: what a way leads to, and whether depths fall.
ghost use Rattle.std.specs.Prelude.{◌≡◌, ◌<◌, IfOk, IsTrue, OnOk, ◌∷◌, [], length, nat_lt, slice_index_or, true};
ghost use Rattle.std.specs.List.{list_all};
ghost use Rattle.resource_core.specs.Graph.{Falls, are_within};
ghost use Rattle.resource_core.specs.Searching.{AreBelow, GoesOn, IsReach};

use doc_tree::{Listed, NoMemory};
use std::alloc::Global;

/// Places.
pub(crate) type Places = Listed<usize>;

/// Whether each place leads only to places that are less deep.
pub(crate) fn falls(nexts: &[Places], depths: &[usize]) -> bool
    requires { length nexts.now ≡ length depths.now }
    ensures { result ≡ true → Falls nexts.now depths.now }
{
    for place in 0..nexts.len() {
        if !are_below(nexts[place].as_slice(), depths, depths[place]) {
            return false;
        }
    }
    true
}

fn are_below(places: &[usize], depths: &[usize], depth: usize) -> bool
    ensures { result ≡ true → AreBelow places.now depths.now depth }
{
    for place in places {
        if *place >= depths.len() || depths[*place] >= depth {
            return false;
        }
    }
    true
}

/// Flags of the places to which a way leads from a start.
pub(crate) fn reached_from(
    alloc: Global,
    nexts: &[Places],
    start: usize,
) -> Result<Vec<bool>, NoMemory>
    requires within { IsTrue (are_within (length nexts.now) nexts.now) }
    requires start { start < length nexts.now }
    ensures { IfOk result (λ reached. IsReach nexts.now start reached.items) }
{
    let mut reached = vec![in alloc; false; nexts.len()]?;
    let mut todo = Vec::new(alloc);
    todo.push(start)?;
    while let Some(place) = todo.pop() {
        step(nexts, place, &mut reached, &mut todo)?;
    }
    Ok(reached)
}

fn step(
    nexts: &[Places],
    place: usize,
    reached: &mut Vec<bool>,
    todo: &mut Vec<usize>,
) -> Result<(), NoMemory>
    requires { IsTrue (are_within (length reached.old.items) nexts.now) }
    ensures { OnOk result (GoesOn (slice_index_or nexts.now place []) reached.old.items todo.old.items reached.new.items todo.new.items) }
{
    match nexts.get(place) {
        Some(nexts) => go_on(nexts.as_slice(), reached, todo),
        None => Ok(()),
    }
}

fn go_on(nexts: &[usize], reached: &mut Vec<bool>, todo: &mut Vec<usize>) -> Result<(), NoMemory>
    requires { IsTrue (list_all (λ next. nat_lt next (length reached.old.items)) nexts.now) }
    ensures { OnOk result (GoesOn nexts.now reached.old.items todo.old.items reached.new.items todo.new.items) }
{
    for next in nexts {
        mark(*next, reached, todo)?;
    }
    Ok(())
}

fn mark(next: usize, reached: &mut Vec<bool>, todo: &mut Vec<usize>) -> Result<(), NoMemory>
    requires { next < length reached.old.items }
    ensures { OnOk result (GoesOn (next ∷ []) reached.old.items todo.old.items reached.new.items todo.new.items) }
{
    if !reached[next] {
        reached[next] = true;
        todo.push(next)?;
    }
    Ok(())
}
