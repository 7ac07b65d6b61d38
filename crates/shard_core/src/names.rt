//! The names that a listing shows.

ghost use Rattle.std.specs.Prelude.{◌≡◌, ◌<◌, ◌≤◌, ◌||◌, ℕ, List, IfOk, OnOk, bytes_eq};
ghost use Rattle.std.specs.List.Sorted.{IsStrictlySortedBy};
ghost use Rattle.doc_tree.specs.Text.{text_cmp};
ghost use Rattle.shard_core.specs.Listing.{has, shows};

use crate::numbers::shard_of;
use doc_tree::{NoMemory, Text};
use org_machine::OrgState;
use std::alloc::Global;
use std::collections::BTreeSet;

/// Whether what is kept under a name is an organisation that is there, and belongs to the shard of
/// this number, of so many.
pub fn is_shown(name: &Text, state: &OrgState, number: usize, count: usize) -> bool
    requires { (0 < count) × (count ≤ 16) }
    ensures { result ≡ shows number count name.now (name.now, state.now) }
{
    state.is_there() && shard_of(name.as_bytes(), count) == number
}

/// Adds a copy of a name to others.
pub fn add_name(alloc: Global, name: &Text, names: &mut BTreeSet<Text>) -> Result<(), NoMemory>
    ensures { OnOk result ((other : List ℕ) → has names.new other ≡ (has names.old other || bytes_eq other name.now)) }
{
    names.insert(name.copy(alloc)?)?;
    Ok(())
}

/// The names of a set, in their order.
pub fn in_order(alloc: Global, names: BTreeSet<Text>) -> Result<Vec<Text>, NoMemory>
    ensures names { IfOk result (λ list. list.items ≡ names.keys) }
    ensures sorted { IfOk result (λ list. IsStrictlySortedBy text_cmp list.items) }
{
    let mut list = Vec::new(alloc);
    for name in names {
        list.push(name)?;
    }
    Ok(list)
}
