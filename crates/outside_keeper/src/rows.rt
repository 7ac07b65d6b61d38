//! Rows in the order of their keys.

ghost use Rattle.std.specs.FinMap as finite;
ghost use Rattle.std.specs.Prelude.{◌≡◌, ◌↔◌, IsTrue, IfOk, OnOk, OnErr};
ghost use Rattle.shelves.specs.SortedMap.{map_of};
ghost use Rattle.outside_keeper.specs.Rows.{is_above, row_cmp};

use crate::RowKey;
use doc_tree::{Bytes, NoMemory};
use shelves::SortedMap;
use std::alloc::Global;
use std::marker::Model;

/// A row: what it is kept by, and its body.
pub type Row = (RowKey, Bytes);

/// Rows in the order of their keys, each key once. Contracts see the finite map of the bodies by the keys.
#[derive(Drop)]
pub struct Rows {
    items: Vec<Row>,
}

impl Model for Rows {
    ghost use Rattle.std.specs.FinMap as finite;
    ghost use Rattle.shelves.specs.Places.{IsInKeyOrder};
    ghost use Rattle.outside_keeper.specs.Rows.{KeptRows, row_cmp, kept_rows_code};

    ghost Value = { KeptRows };

    ghost coded = { kept_rows_code };

    ghost view = { λ r. finite.from_sorted {R = row_cmp} r.items.items };

    ghost invariant = { λ r. IsInKeyOrder row_cmp r.items.items };
}

impl Rows {
    /// No rows. It takes no memory.
    pub fn new(alloc: Global) -> Rows
        ensures { result ≡ finite.empty }
    {
        Rows {
            items: Vec::new(alloc),
        }
    }

    /// How many rows there are.
    pub fn len(&self) -> usize
        ensures { result ≡ finite.len self.now }
    {
        self.items.len()
    }

    /// Whether there is no row.
    pub fn is_empty(&self) -> bool
        ensures { IsTrue result ↔ (self.now ≡ finite.empty) }
    {
        self.items.is_empty()
    }

    /// The rows, in the order of their keys.
    pub fn as_slice(&self) -> &[Row]
        ensures { result.now ≡ finite.entries self.now }
    {
        &self.items
    }

    /// The rows in the order of their keys, which are moved out.
    pub fn into_vec(self) -> Vec<Row>
        ensures { result.items ≡ finite.entries self }
    {
        let Rows { items } = self;
        items
    }

    /// Whether a key is above that of the last row, so that its row goes behind all that are there.
    pub fn is_above(&self, key: &RowKey) -> bool
        ensures { result ≡ is_above key.now self.now }
    {
        match self.items.last() {
            Some((last, _)) => last.cmp(key).is_lt(),
            None => true,
        }
    }

    /// Adds a row behind all that are there. Where there is no memory (`NoMemory`), nothing changes.
    pub fn push(&mut self, key: RowKey, body: Bytes) -> Result<(), NoMemory>
        requires { IsTrue (is_above key self.old) }
        ensures ok { OnOk result (self.new ≡ finite.insert self.old key body) }
        ensures err { OnErr result (self.new ≡ self.old) }
    {
        self.items.push((key, body))?;
        Ok(())
    }
}

/// Copies of all rows of a map, in the order of their keys.
pub(crate) fn copied(alloc: Global, map: &SortedMap<RowKey, Bytes>) -> Result<Rows, NoMemory>
    ensures { IfOk result (λ rows. rows ≡ map_of row_cmp map.now) }
{
    let items = copies_of(alloc, map.entries())?;
    Ok(Rows { items })
}

// Copies of rows.
fn copies_of(alloc: Global, rows: &[Row]) -> Result<Vec<Row>, NoMemory>
    ensures { IfOk result (λ copies. copies.items ≡ rows.now) }
{
    let mut copies = Vec::with_capacity(alloc, rows.len())?;
    for (key, body) in rows {
        let key = key.copy(alloc)?;
        copies.push((key, body.copy(alloc)?))?;
    }
    Ok(copies)
}
