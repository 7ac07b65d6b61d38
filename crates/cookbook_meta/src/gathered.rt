//! The entries of a manifest while they are gathered.
ghost use Rattle.std.specs.Prelude.{◌≡◌, ◌||◌, ◌&&◌, ◌∷◌, ◌++◌, [], ℕ, List, IfOk, Ok, bytes_eq, if◌then◌else◌, not};
ghost use Rattle.std.specs.BTreeSet.{contains};
ghost use Rattle.std.specs.Cmp.Lexicographic.{slice_cmp};
ghost use Rattle.std.specs.Ordering.{nat_cmp};
ghost use Rattle.cookbook_meta.specs.Entries.{with_entry};
ghost use Rattle.cookbook_meta.specs.Faults.{then_do};
ghost use Rattle.cookbook_meta.specs.Gathered.{is_put};
ghost use Rattle.cookbook_meta.specs.Outcomes.{Finds};

use crate::entries::{Entries, Entry};
use crate::fault::Flaw;
use doc_tree::{NoMemory, Text};
use std::alloc::Global;
use std::collections::BTreeSet;
use std::marker::Model;

/// The entries so far, with the set of their paths, so that a path that stands before is found without going over
/// them. Contracts see the list of the entries.
#[derive(Drop)]
pub(crate) struct Gathered {
    entries: Vec<Entry>,
    paths: BTreeSet<Text>,
}

impl Model for Gathered {
    ghost use Rattle.std.specs.Prelude.{List};
    ghost use Rattle.cookbook_meta.specs.Gathered.{HasPathsOf};
    ghost use Rattle.cookbook_meta.specs.declared.entries.Entry.{Entry};

    ghost Value = { List Entry };

    ghost view = { λ g. g.entries.items };

    ghost invariant = { λ g. HasPathsOf g.entries.items g.paths };
}

impl Gathered {
    /// No entries.
    pub(crate) fn none(alloc: Global) -> Gathered
        ensures { result ≡ [] }
    {
        Gathered {
            entries: Vec::new(alloc),
            paths: BTreeSet::new(alloc),
        }
    }

    /// Adds an entry behind them, whose path none of them has.
    pub(crate) fn add(&mut self, alloc: Global, entry: Entry) -> Result<(), Flaw>
        ensures { Finds (then_do result (λ done. Ok self.new)) (with_entry self.old entry) }
    {
        let path = entry.path.copy(alloc)?;
        match put(&mut self.entries, &mut self.paths, path, entry) {
            Ok(true) => Ok(()),
            Ok(false) => Err(Flaw::DoublePath),
            Err(_) => Err(Flaw::NoMemory),
        }
    }

    /// The entries.
    pub(crate) fn into_entries(self) -> Entries
        ensures { result ≡ self }
    {
        let Gathered { entries, .. } = self;
        Entries::of(entries)
    }
}

/// Puts an entry behind the others and this path into the set, if the path is new, and tells whether it is. At want of
/// memory both are as before.
fn put(
    entries: &mut Vec<Entry>,
    paths: &mut BTreeSet<Text>,
    path: Text,
    entry: Entry,
) -> Result<bool, NoMemory>
    ensures new { IfOk result (λ b. b ≡ not (contains (slice_cmp nat_cmp) paths.old path)) }
    ensures items { entries.new.items ≡ (if is_put result then entries.old.items ++ entry ∷ [] else entries.old.items) }
    ensures keys { (q : List ℕ) → contains (slice_cmp nat_cmp) paths.new q ≡ ((is_put result && bytes_eq q path) || contains (slice_cmp nat_cmp) paths.old q) }
{
    entries.reserve(1)?;
    let is_new = paths.insert(path)?;
    if is_new {
        entries.push_reserved(entry);
    }
    Ok(is_new)
}
