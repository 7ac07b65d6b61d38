//! What a keeper is, and what its calls promise.

ghost use Rattle.std.specs.Prelude.{◌≡◌, ℕ, IfOk, OnOk, OnErr, option_map};
ghost use Rattle.std.specs.declared.option.Option.{Option};
ghost use Rattle.outside_keeper.specs.Rows.{KeptRows};
ghost use Rattle.outside_keeper.specs.Changes.{changed_by};
ghost use Rattle.outside_keeper.specs.Keeper.{AreRows, HasKeepCause};

use crate::{Changes, KeepFault, Rows};
use std::alloc::Global;

/// Something that keeps rows, as a database in a file or a map in memory. A call changes nothing that is told but what is
/// said of it.
pub trait Keeper {
    /// The rows that it keeps, where it tells them.
    ghost rows: { Self → Option KeptRows };

    /// How often it has failed. The count never falls, and stands still at 2^64-1.
    ghost faults: { Self → ℕ };

    /// All rows, in the order of their keys.
    ///
    /// [`KeepFault::Failed`] comes only where the count of faults rose, and any other answer leaves the count.
    /// [`KeepFault::NoMemory`] comes for want of memory, that of a database among it. The rows stay as they were.
    fn load(&mut self, alloc: Global) -> Result<Rows, KeepFault>
        ensures rows { IfOk result (AreRows (rows self.old)) }
        ensures kept { rows self.new ≡ rows self.old }
        ensures cause { HasKeepCause (faults self.old) (faults self.new) result };

    /// Makes all the changes, in their order, or none.
    ///
    /// [`KeepFault::Failed`] comes only where the count of faults rose, and any other answer leaves the count.
    /// [`KeepFault::NoMemory`] comes for want of memory, that of a database among it. After either the rows are as before.
    fn commit(&mut self, alloc: Global, changes: &Changes) -> Result<(), KeepFault>
        ensures ok { OnOk result (rows self.new ≡ option_map (changed_by changes.now) (rows self.old)) }
        ensures err { OnErr result (rows self.new ≡ rows self.old) }
        ensures cause { HasKeepCause (faults self.old) (faults self.new) result };

    /// How often it has failed. It takes no memory.
    fn faults(&self) -> u64
        ensures { result ≡ faults self.now };
}
