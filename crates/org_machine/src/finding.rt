//! What a finder is told of the moves that are made: which objects of which indexes come, with which pairs, and which go.

ghost use Rattle.std.specs.Prelude.{◌≡◌, ◌++◌, IfOk, OnOk, None, Some, is_some, option_map};
ghost use Rattle.doc_tree.specs.Tree.{doc_of};
ghost use Rattle.object_finder.specs.Changes.{HasRoomFor};
ghost use Rattle.object_finder.specs.Indexes.{entry_of};
ghost use Rattle.search_query.specs.Pairs.{pairs_of};
ghost use Rattle.org_core.specs.Moves.{opens as spec_opens};
ghost use Rattle.org_core.specs.States.{state_in};
ghost use Rattle.org_machine.specs.Finding as spec;
ghost use Rattle.org_machine.specs.Finding.{AreChanges};

use doc_tree::{Kind, NoMemory, Text, Tree};
use object_finder::{Change, Changes, Finder, Scope, entry_of, reserve_for};
use object_store::Key;
use org_core::{Move, OrgState};
use search_query::{Pairs, pairs};
use std::alloc::Global;

/// Makes the changes of these moves, with room for them in the finder. A finder that holds nothing is told nothing.
pub(crate) fn changes_with_room<F: Finder>(
    alloc: Global,
    finder: &mut F,
    state: &OrgState,
    moves: &[Move],
) -> Result<Changes, NoMemory>
    ensures held { F.held finder.new ≡ F.held finder.old }
    ensures looks { F.looks finder.new ≡ F.looks finder.old }
    ensures changes { IfOk result (λ changes. AreChanges (F.held finder.new) state.now.name (is_some (state_in state.now)) moves.now changes) }
    ensures room { IfOk result (λ changes. HasRoomFor (F.room finder.new) changes) }
{
    let changes = changes_for(alloc, finder, state, moves)?;
    reserve_for(finder, changes.as_slice())?;
    Ok(changes)
}

fn changes_for<F: Finder>(
    alloc: Global,
    finder: &F,
    state: &OrgState,
    moves: &[Move],
) -> Result<Changes, NoMemory>
    ensures { IfOk result (λ changes. AreChanges (F.held finder.now) state.now.name (is_some (state_in state.now)) moves.now changes) }
{
    if finder.keeps() {
        changes_by(alloc, state.name(), state.is_there(), moves)
    } else {
        Ok(Changes::new(alloc))
    }
}

fn changes_by(alloc: Global, org: &Text, there: bool, moves: &[Move]) -> Result<Changes, NoMemory>
    ensures { IfOk result (λ changes. changes ≡ spec.changes_by org.now there moves.now) }
{
    let mut there = there;
    let mut changes = Changes::new(alloc);
    for one in moves {
        add_changes(alloc, org, there, one, &mut changes)?;
        there = there || opens(one);
    }
    Ok(changes)
}

// Adds what a move changes, if anything.
fn add_changes(
    alloc: Global,
    org: &Text,
    there: bool,
    one: &Move,
    changes: &mut Changes,
) -> Result<(), NoMemory>
    ensures { OnOk result (changes.new ≡ changes.old ++ spec.changes_of org.now there one.now) }
{
    if there {
        add(changes, change_of(alloc, org, one)?)
    } else {
        Ok(())
    }
}

fn add(changes: &mut Changes, change: Option<Change>) -> Result<(), NoMemory>
    ensures { OnOk result (changes.new ≡ changes.old ++ spec.listed change) }
{
    match change {
        Some(change) => changes.push(change),
        None => Ok(()),
    }
}

// Whether a move makes an organisation of none.
fn opens(one: &Move) -> bool
    ensures { result ≡ spec_opens one.now }
{
    matches!(one, Move::Open)
}

fn change_of(alloc: Global, org: &Text, one: &Move) -> Result<Option<Change>, NoMemory>
    ensures { IfOk result (λ change. change ≡ spec.change_of org.now one.now) }
{
    match one {
        Move::Put(key, object) => comes(alloc, org, key, object.tree()),
        Move::TakeOut(key) => goes(alloc, org, key),
        Move::Open
        | Move::PutList(_, _)
        | Move::TakeList(_)
        | Move::AddUser(_)
        | Move::RemoveUser(_)
        | Move::AddClient(_)
        | Move::RemoveClient(_)
        | Move::PutGroup(_, _)
        | Move::RemoveGroup(_)
        | Move::OnShelves(_)
        | Move::OnFiles(_) => Ok(None),
    }
}

// The object of a key comes, where it is in an index.
fn comes(alloc: Global, org: &Text, key: &Key, object: &Tree) -> Result<Option<Change>, NoMemory>
    ensures { IfOk result (λ change. change ≡ option_map (spec.changed_at org.now (Some (spec.in_order (pairs_of key.now.kind (doc_of object.now))))) (entry_of key.now)) }
{
    match entry_of(key) {
        Some((index, name)) => {
            let pairs = pairs_in_order(alloc, key.kind, object)?;
            Ok(Some(change_at(alloc, org, index, name, Some(pairs))?))
        }
        None => Ok(None),
    }
}

// The pairs of an object, in their order and each once.
fn pairs_in_order(alloc: Global, kind: Kind, object: &Tree) -> Result<Pairs, NoMemory>
    ensures { IfOk result (λ made. made ≡ spec.in_order (pairs_of kind (doc_of object.now))) }
{
    let made = pairs(alloc, kind, object)?;
    Ok(made)
}

// The object of a key goes, where it is in an index.
fn goes(alloc: Global, org: &Text, key: &Key) -> Result<Option<Change>, NoMemory>
    ensures { IfOk result (λ change. change ≡ option_map (spec.changed_at org.now None) (entry_of key.now)) }
{
    match entry_of(key) {
        Some((index, name)) => Ok(Some(change_at(alloc, org, index, name, None)?)),
        None => Ok(None),
    }
}

fn change_at(
    alloc: Global,
    org: &Text,
    index: &str,
    name: &str,
    pairs: Option<Pairs>,
) -> Result<Change, NoMemory>
    ensures { IfOk result (λ change. change ≡ spec.changed_at org.now pairs (index.now, name.now)) }
{
    let scope = Scope {
        org: org.copy(alloc)?,
        index: Text::from_str(alloc, index)?,
    };
    Ok(Change {
        scope,
        name: Text::from_str(alloc, name)?,
        pairs,
    })
}
