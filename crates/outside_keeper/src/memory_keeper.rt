//! Keepers over rows in memory.

ghost use Rattle.std.specs.Prelude.{◌≡◌, ◌↔◌, IsTrue, IfOk, OnOk, OnErr, Some, Err, option_map};
ghost use Rattle.std.specs.FinMap as finite;
ghost use Rattle.outside_core.specs.Failures.{planned, is_due, after_call};
ghost use Rattle.outside_keeper.specs.Changes.{changed_by};
ghost use Rattle.outside_keeper.specs.Keeper.{AreRows, HasKeepCause};
ghost use Rattle.outside_keeper.specs.declared.keep_fault.KeepFault.TheVariants as fault;

use crate::change::{copies, make_all};
use crate::rows::copied;
use crate::{Changes, KeepFault, Keeper, Row, RowKey, Rows};
use doc_tree::{Bytes, NoMemory};
use outside_core::Failures;
use shelves::SortedMap;
use std::alloc::Global;
use std::marker::Model;

/// Rows in memory, of which no call fails. Contracts see the finite map of their bodies by their keys.
#[derive(Drop)]
pub struct NeverFailingKeeper {
    rows: SortedMap<RowKey, Bytes>,
}

impl Model for NeverFailingKeeper {
    ghost use Rattle.shelves.specs.SortedMap.{map_of};
    ghost use Rattle.outside_keeper.specs.Rows.{KeptRows, row_cmp, kept_rows_code};

    ghost Value = { KeptRows };

    ghost coded = { kept_rows_code };

    ghost view = { λ k. map_of row_cmp k.rows };
}

impl NeverFailingKeeper {
    /// A keeper without rows. It takes no memory.
    pub fn new(alloc: Global) -> Self
        ensures { result ≡ finite.empty }
    {
        NeverFailingKeeper {
            rows: SortedMap::new(alloc),
        }
    }

    /// The rows that it keeps, in the order of their keys. This is no call of the keeper.
    pub fn rows(&self) -> &[Row]
        ensures { result.now ≡ finite.entries self.now }
    {
        self.rows.entries()
    }

    /// Puts a row in, in place of one that has its key, which is no call of the keeper.
    pub fn put(&mut self, key: RowKey, body: Bytes) -> Result<(), NoMemory>
        ensures ok { OnOk result (self.new ≡ finite.insert self.old key body) }
        ensures err { OnErr result (self.new ≡ self.old) }
    {
        self.rows.reserve(1)?;
        drop(self.rows.insert(key, body));
        Ok(())
    }

    // Copies of all rows.
    fn all(&self, alloc: Global) -> Result<Rows, NoMemory>
        ensures { IfOk result (λ rows. rows ≡ self.now) }
    {
        copied(alloc, &self.rows)
    }

    // Makes all the changes, or none where there is no memory.
    fn make(&mut self, alloc: Global, changes: &Changes) -> Result<(), NoMemory>
        ensures ok { OnOk result (self.new ≡ changed_by changes.now self.old) }
        ensures err { OnErr result (self.new ≡ self.old) }
    {
        let copies = copies(alloc, changes.as_slice())?;
        self.rows.reserve(copies.len())?;
        make_all(&mut self.rows, copies);
        Ok(())
    }
}

impl Keeper for NeverFailingKeeper {
    ghost rows = { λ k. Some k };

    ghost faults = { λ _. 0 };

    fn load(&mut self, alloc: Global) -> Result<Rows, KeepFault> {
        Ok(self.all(alloc)?)
    }

    fn commit(&mut self, alloc: Global, changes: &Changes) -> Result<(), KeepFault> {
        Ok(self.make(alloc, changes)?)
    }

    fn faults(&self) -> u64 {
        0
    }
}

/// Rows in memory, of which some calls fail, for trying what comes after a fault. Contracts see its rows and its failures.
#[derive(Drop)]
pub struct MemKeeper {
    keeper: NeverFailingKeeper,
    failures: Failures,
    // As many as `failures` has counted.
    faults: u64,
}

impl Model for MemKeeper {
    ghost use Rattle.std.specs.Prelude.{◌≡◌};
    ghost use Rattle.outside_keeper.specs.MemoryKeeper.{HeldRows, held_rows_code};

    ghost Value = { HeldRows };

    ghost coded = { held_rows_code };

    ghost view = { λ k. record { rows = k.keeper; failures = k.failures } };

    ghost invariant = { λ k. k.faults ≡ k.failures.faults };
}

impl MemKeeper {
    /// A keeper without rows. It fails at the calls of `load` and `commit` with these numbers; the first call is number 1.
    pub fn new(alloc: Global, failing: Vec<u64>) -> Self
        ensures { result ≡ record { rows = finite.empty; failures = planned failing.items } }
    {
        MemKeeper {
            keeper: NeverFailingKeeper::new(alloc),
            failures: Failures::planned(failing),
            faults: 0,
        }
    }

    /// The rows that it keeps, in the order of their keys. This is no call of the keeper.
    pub fn rows(&self) -> &[Row]
        ensures { result.now ≡ finite.entries self.now.rows }
    {
        self.keeper.rows()
    }

    /// Puts a row in, in place of one that has its key, which is no call of the keeper.
    pub fn put(&mut self, key: RowKey, body: Bytes) -> Result<(), NoMemory>
        ensures ok { OnOk result (self.new ≡ record self.old { rows = finite.insert self.old.rows key body }) }
        ensures err { OnErr result (self.new ≡ self.old) }
    {
        self.keeper.put(key, body)
    }

    // Counts one call, and its fault where it is to fail.
    fn call(&mut self) -> Result<(), KeepFault>
        ensures counted { self.new ≡ record self.old { failures = after_call self.old.failures } }
        ensures due { (result ≡ Err fault.Failed) ↔ IsTrue (is_due self.old.failures) }
        ensures cause { HasKeepCause self.old.failures.faults self.new.failures.faults result }
    {
        if self.failures.call().is_err() {
            self.faults = self.faults.saturating_add(1);
            return Err(KeepFault::Failed);
        }
        Ok(())
    }
}

impl Keeper for MemKeeper {
    ghost rows = { λ k. Some k.rows };

    ghost faults = { λ k. k.failures.faults };

    /// Fails at the planned calls alone.
    fn load(&mut self, alloc: Global) -> Result<Rows, KeepFault>
        ensures rows { IfOk result (AreRows (Some self.old.rows)) }
        ensures kept { Some self.new.rows ≡ Some self.old.rows }
        ensures cause { HasKeepCause self.old.failures.faults self.new.failures.faults result }
        ensures counted { self.new ≡ record self.old { failures = after_call self.old.failures } }
        ensures due { (result ≡ Err fault.Failed) ↔ IsTrue (is_due self.old.failures) }
    {
        self.call()?;
        Ok(self.keeper.all(alloc)?)
    }

    /// Fails at the planned calls alone.
    fn commit(&mut self, alloc: Global, changes: &Changes) -> Result<(), KeepFault>
        ensures ok { OnOk result (Some self.new.rows ≡ option_map (changed_by changes.now) (Some self.old.rows)) }
        ensures err { OnErr result (Some self.new.rows ≡ Some self.old.rows) }
        ensures cause { HasKeepCause self.old.failures.faults self.new.failures.faults result }
        ensures counted { self.new.failures ≡ after_call self.old.failures }
        ensures due { (result ≡ Err fault.Failed) ↔ IsTrue (is_due self.old.failures) }
    {
        self.call()?;
        Ok(self.keeper.make(alloc, changes)?)
    }

    fn faults(&self) -> u64 {
        self.faults
    }
}
