//! Sets of checksums.
ghost use Rattle.std.specs.Prelude.{ℕ, List, [], not, is_some, bytes_eq, ◌≡◌, ◌↔◌, IsTrue, IfOk};
ghost use Rattle.std.specs.List.{filter};
ghost use Rattle.indexmap.specs.IndexMap.{get};
ghost use Rattle.sandboxes.specs.Sums.{IsRising, lists};

use crate::checksum::Checksum;
use crate::stored::Stored;
use doc_tree::NoMemory;
use indexmap::IndexMap;
use std::alloc::Global;
use std::marker::Model;

/// Checksums, in the order of their bytes and without repeats: contracts see the list of them.
#[derive(Drop)]
pub struct Sums {
    items: Vec<Checksum>,
}

impl Model for Sums {
    ghost use Rattle.std.specs.Prelude.{ℕ, List, [], not, is_some, List, ℕ};
    ghost use Rattle.sandboxes.specs.Sums.{IsRising};

    ghost Value = { List (List ℕ) };

    ghost view = { λ s. s.items.items };

    ghost invariant = { λ s. IsRising s.items.items };
}

impl Sums {
    /// No checksums. It takes no memory.
    pub fn new(alloc: Global) -> Sums
        ensures { result ≡ [] }
    {
        Sums {
            items: Vec::new(alloc),
        }
    }

    /// Some checksums, in any order and with any repeats: they are put in order where
    /// they stand, which takes no memory.
    pub fn of(items: Vec<Checksum>) -> Sums
        ensures rising { IsRising result }
        ensures members { (sum : List ℕ) → lists result sum ≡ lists items.items sum }
    {
        let mut items = items;
        items.sort_unstable();
        items.dedup();
        Sums { items }
    }

    /// Some checksums that are in the order of their bytes and without repeats, as they stand.
    pub fn in_order(items: Vec<Checksum>) -> Sums
        requires { IsRising items.items }
        ensures { result ≡ items.items }
    {
        Sums { items }
    }

    /// The checksums in the order of their bytes, as a slice that borrows them.
    pub fn as_slice(&self) -> &[Checksum]
        ensures value { result.now ≡ self.now }
        ensures rising { IsRising self.now }
    {
        self.items.as_slice()
    }

    /// The checksums in the order of their bytes, moved out. It takes no memory.
    pub fn into_vec(self) -> Vec<Checksum>
        ensures value { result.items ≡ self }
        ensures rising { IsRising self }
    {
        let Sums { items } = self;
        items
    }

    /// Whether there are no checksums.
    pub fn is_empty(&self) -> bool
        ensures { IsTrue result ↔ (self.now ≡ []) }
    {
        self.items.is_empty()
    }

    /// Whether a checksum is one of these. It is looked for by halves.
    pub fn contains(&self, sum: &Checksum) -> bool
        ensures { result ≡ lists self.now sum.now }
    {
        self.items.binary_search(sum).is_ok()
    }

    /// Those of which no file is there, in order.
    pub(crate) fn without(
        &self,
        alloc: Global,
        files: &IndexMap<Checksum, Stored>,
    ) -> Result<Sums, NoMemory>
        ensures { IfOk result (λ sums. sums ≡ filter (λ sum. not (is_some (get bytes_eq files.now sum))) self.now) }
    {
        let mut items = Vec::new(alloc);
        for sum in &self.items {
            if !files.contains_key(sum) {
                items.push(*sum)?;
            }
        }
        Ok(Sums { items })
    }

    /// An equal list with memory of its own.
    pub fn copy(&self, alloc: Global) -> Result<Sums, NoMemory>
        ensures { IfOk result (λ sums. sums ≡ self.now) }
    {
        Ok(Sums {
            items: Vec::from_slice(alloc, self.items.as_slice())?,
        })
    }
}
