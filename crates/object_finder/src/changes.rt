//! Changes of what a finder holds.
ghost use Rattle.std.specs.Prelude.{◌≡◌, ◌≤◌, ◌∷◌, [], IfOk, OnOk, option_map};
ghost use Rattle.object_finder.specs.Changes as spec;
ghost use Rattle.object_finder.specs.Changes.{HasRoomFor, after_change, after_changes};
ghost use Rattle.object_finder.specs.Held.{LosesRoom};

use crate::finder::Finder;
use crate::scopes::Scope;
use doc_tree::{Listed, NoMemory, Text};
use search_query::Pairs;

/// That an object comes with its pairs, in the place of the one that is there, or goes.
#[derive(Drop)]
pub struct Change {
    /// Its organisation and index.
    pub scope: Scope,
    /// Its name: of an item its id.
    pub name: Text,
    /// Its pairs from now on; `None` where it goes.
    pub pairs: Option<Pairs>,
}

/// Changes, in the order in which they are made.
pub type Changes = Listed<Change>;

/// Makes room in a finder for all that these changes bring. What it holds stays.
pub fn reserve_for<F: Finder>(finder: &mut F, changes: &[Change]) -> Result<(), NoMemory>
    ensures held { F.held finder.new ≡ F.held finder.old }
    ensures looks { F.looks finder.new ≡ F.looks finder.old }
    ensures room { OnOk result (HasRoomFor (F.room finder.new) changes.now) }
{
    let objects = objects_come(changes);
    let pairs = pairs_come(changes)?;
    finder.reserve(objects, pairs, pairs)
}

fn objects_come(changes: &[Change]) -> usize
    ensures { result ≡ spec.objects_come changes.now }
{
    let mut count = 0;
    for change in changes {
        count += objects_in(change);
    }
    count
}

fn objects_in(change: &Change) -> usize
    ensures value { result ≡ spec.objects_in change.now }
    ensures most { result ≤ 1 }
{
    usize::from(change.pairs.is_some())
}

// More pairs than a number counts have no room.
fn pairs_come(changes: &[Change]) -> Result<usize, NoMemory>
    ensures { IfOk result (λ count. count ≡ spec.pairs_come changes.now) }
{
    let mut count: usize = 0;
    for change in changes {
        match count.checked_add(pairs_in(change)) {
            Some(more) => count = more,
            None => return Err(NoMemory),
        }
    }
    Ok(count)
}

fn pairs_in(change: &Change) -> usize
    ensures { result ≡ spec.pairs_in change.now }
{
    match &change.pairs {
        Some(pairs) => pairs.as_slice().len(),
        None => 0,
    }
}

/// Makes changes in a finder that has room for them, in order. It can't fail.
pub fn make_changes<F: Finder>(finder: &mut F, changes: Changes)
    requires { HasRoomFor (F.room finder.old) changes }
    ensures held { F.held finder.new ≡ option_map (after_changes changes) (F.held finder.old) }
    ensures looks { F.looks finder.new ≡ F.looks finder.old }
{
    for change in changes.into_vec() {
        make_change(finder, change);
    }
}

fn make_change<F: Finder>(finder: &mut F, change: Change)
    requires { HasRoomFor (F.room finder.old) (change ∷ []) }
    ensures held { F.held finder.new ≡ option_map (after_change change) (F.held finder.old) }
    ensures looks { F.looks finder.new ≡ F.looks finder.old }
    ensures room { LosesRoom (F.room finder.old) (F.room finder.new) (spec.objects_in change) (spec.pairs_in change) (spec.pairs_in change) }
{
    let Change { scope, name, pairs } = change;
    match pairs {
        Some(pairs) => finder.insert(scope, name, pairs),
        None => finder.remove(&scope, &name),
    }
}
