//! Names that are gathered in order.
ghost use Rattle.std.specs.Prelude.{◌≡◌, ◌||◌, List, ℕ, IfOk, OnOk, bytes_eq};
ghost use Rattle.std.specs.List.{list_any};
ghost use Rattle.doc_tree.specs.Valid.{InOrder};
ghost use Rattle.object_store.specs.Kept.{has};

use doc_tree::{NoMemory, Text, Texts};
use std::alloc::Global;
use std::collections::BTreeSet;

/// Adds a copy of a name to others.
pub(crate) fn add_name(
    alloc: Global,
    name: &str,
    names: &mut BTreeSet<Text>,
) -> Result<(), NoMemory>
    ensures { OnOk result ((other : List ℕ) → has names.new other ≡ (has names.old other || bytes_eq other name.now)) }
{
    names.insert(Text::from_str(alloc, name)?)?;
    Ok(())
}

/// The names of a set, in their order.
pub(crate) fn in_order(alloc: Global, names: BTreeSet<Text>) -> Result<Texts, NoMemory>
    ensures names { IfOk result (λ list. (name : List ℕ) → list_any (bytes_eq name) list ≡ has names name) }
    ensures order { IfOk result InOrder }
{
    let mut list = Vec::new(alloc);
    for name in names {
        list.push(name)?;
    }
    Ok(Texts::of(list))
}
