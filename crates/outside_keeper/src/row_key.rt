//! What a row is kept by.

ghost use Rattle.std.specs.Prelude.{◌≡◌, IfOk, Some, refl};
ghost use Rattle.std.specs.Cmp.{partial_equiv_from_equiv, eq_by_cmp_equiv, partial_order_from_total};
ghost use Rattle.std.specs.Ordering.{eq_by_cmp};
ghost use Rattle.outside_keeper.specs.Rows.{row_cmp, row_cmp_total};

use doc_tree::{NoMemory, Text};
use std::alloc::Global;
use std::cmp::Ordering;

/// What a row is kept by: an organisation, the word of a kind, and a name. Keys compare by these, in this order, as bytes.
#[derive(Debug, Drop)]
pub struct RowKey {
    pub org: Text,
    pub kind: Text,
    pub name: Text,
}

impl RowKey {
    /// An equal key with memory of its own.
    pub fn copy(&self, alloc: Global) -> Result<RowKey, NoMemory>
        ensures { IfOk result (λ key. key ≡ self.now) }
    {
        let org = self.org.copy(alloc)?;
        let kind = self.kind.copy(alloc)?;
        let name = self.name.copy(alloc)?;
        Ok(RowKey { org, kind, name })
    }
}

impl PartialEq for RowKey {
    ghost eq = { eq_by_cmp row_cmp };

    ghost laws = { partial_equiv_from_equiv (eq_by_cmp_equiv row_cmp_total) };

    fn eq(&self, other: &Self) -> bool {
        self.cmp(other) == Ordering::Equal
    }
}

impl Eq for RowKey {
    ghost laws = { eq_by_cmp_equiv row_cmp_total };
}

impl PartialOrd for RowKey {
    ghost partial_cmp = { λ x y. Some (row_cmp x y) };

    ghost laws = { partial_order_from_total row_cmp_total };

    fn partial_cmp(&self, other: &Self) -> Option<Ordering> {
        Some(self.cmp(other))
    }
}

impl Ord for RowKey {
    ghost cmp = { row_cmp };

    ghost total = { row_cmp_total };

    ghost matches_partial_cmp = { λ x y. refl };

    ghost matches_eq = { λ x y. refl };

    fn cmp(&self, other: &Self) -> Ordering {
        self.org
            .cmp(&other.org)
            .then(self.kind.cmp(&other.kind))
            .then(self.name.cmp(&other.name))
    }
}
