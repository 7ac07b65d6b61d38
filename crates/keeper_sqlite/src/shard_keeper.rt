//! The keeper of a shard, in memory or over a file.

ghost use Rattle.keeper_sqlite.specs.ShardKeeper.{rows_told, faults_of};

use crate::sqlite_keeper::SqliteKeeper;
use outside_keeper::{Changes, KeepFault, Keeper, NeverFailingKeeper, Rows};
use std::alloc::Global;

/// The keeper of a shard: over the shard's file where there is a store, and else in memory, where it tells its rows and
/// never fails.
#[derive(Drop)]
pub enum ShardKeeper {
    /// Rows in memory alone.
    Memory(NeverFailingKeeper),
    /// The rows of the shard's file.
    File(SqliteKeeper),
}

impl Keeper for ShardKeeper {
    ghost rows = { rows_told };

    ghost faults = { faults_of };

    fn load(&mut self, alloc: Global) -> Result<Rows, KeepFault> {
        match self {
            ShardKeeper::Memory(keeper) => keeper.load(alloc),
            ShardKeeper::File(keeper) => keeper.load(alloc),
        }
    }

    fn commit(&mut self, alloc: Global, changes: &Changes) -> Result<(), KeepFault> {
        match self {
            ShardKeeper::Memory(keeper) => keeper.commit(alloc, changes),
            ShardKeeper::File(keeper) => keeper.commit(alloc, changes),
        }
    }

    fn faults(&self) -> u64 {
        match self {
            ShardKeeper::Memory(keeper) => keeper.faults(),
            ShardKeeper::File(keeper) => keeper.faults(),
        }
    }
}
