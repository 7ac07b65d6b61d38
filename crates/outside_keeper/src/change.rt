//! Changes of rows.

ghost use Rattle.std.specs.Prelude.{◌≡◌, ◌≤◌, ◌+◌, IfOk, length};
ghost use Rattle.shelves.specs.SortedMap.{map_of};
ghost use Rattle.outside_keeper.specs.Changes.{changed, changed_by};
ghost use Rattle.outside_keeper.specs.Rows.{row_cmp};

use crate::RowKey;
use doc_tree::{Bytes, Listed, NoMemory};
use shelves::SortedMap;
use std::alloc::Global;

/// One change of the rows.
#[derive(Drop)]
pub enum Change {
    /// The row of this key has this body from now on.
    Put(RowKey, Bytes),
    /// No row has this key from now on.
    Erase(RowKey),
}

/// Changes, in the order in which they are made. Contracts see a list of them.
pub type Changes = Listed<Change>;

impl Change {
    /// An equal change with memory of its own.
    pub fn copy(&self, alloc: Global) -> Result<Change, NoMemory>
        ensures { IfOk result (λ change. change ≡ self.now) }
    {
        match self {
            Change::Put(key, body) => {
                let copy = key.copy(alloc)?;
                Ok(Change::Put(copy, body.copy(alloc)?))
            }
            Change::Erase(key) => Ok(Change::Erase(key.copy(alloc)?)),
        }
    }
}

/// Copies of changes.
pub(crate) fn copies(alloc: Global, changes: &[Change]) -> Result<Vec<Change>, NoMemory>
    ensures { IfOk result (λ copies. copies.items ≡ changes.now) }
{
    let mut copies = Vec::with_capacity(alloc, changes.len())?;
    for change in changes {
        copies.push(change.copy(alloc)?)?;
    }
    Ok(copies)
}

/// Makes changes for which there is room. It takes no memory.
pub(crate) fn make_all(rows: &mut SortedMap<RowKey, Bytes>, changes: Vec<Change>)
    requires { length changes.items ≤ rows.old.spare }
    ensures { map_of row_cmp rows.new ≡ changed_by changes.items (map_of row_cmp rows.old) }
{
    for change in changes {
        make(rows, change);
    }
}

// Makes a change for which there is room.
fn make(rows: &mut SortedMap<RowKey, Bytes>, change: Change)
    requires { 1 ≤ rows.old.spare }
    ensures map { map_of row_cmp rows.new ≡ changed change (map_of row_cmp rows.old) }
    ensures spare { rows.old.spare ≤ rows.new.spare + 1 }
{
    match change {
        Change::Put(key, body) => drop(rows.insert(key, body)),
        Change::Erase(key) => drop(rows.remove(&key)),
    }
}
