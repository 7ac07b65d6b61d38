//! What makes the keepers of shards.

ghost use Rattle.std.specs.Prelude.{◌≡◌, ◌≤◌, None, Ok, IfOk, option_copied};
ghost use Rattle.std.specs.FinMap as finite;
ghost use Rattle.outside_keeper.specs.Keeper.{HasOpenCause};
ghost use Rattle.keeper_sqlite.specs.ShardKeeper.{faults_of};
ghost use Rattle.keeper_sqlite.specs.declared.shard_keeper.ShardKeeper.TheVariants as made;

use crate::files::{has_others, path_of};
use crate::shard_keeper::ShardKeeper;
use crate::sqlite_keeper::SqliteKeeper;
use doc_tree::Text;
use outside_keeper::{NeverFailingKeeper, OpenFault};
use sqlite::{Error, ErrorCode};
use std::io::ErrorKind;

/// Makes the keepers of shards over the files of a store, and takes them back, with a count of the keepers that it couldn't
/// make.
#[derive(Drop)]
pub struct ShardKeepers {
    rt: HostRuntime,
    faults: u64,
}

impl ShardKeepers {
    /// What makes keepers over the files that this runtime reaches, with no fault yet.
    pub fn new(rt: HostRuntime) -> Self
        ensures { result.faults ≡ 0 }
    {
        ShardKeepers { rt, faults: 0 }
    }

    /// How many keepers couldn't be made. The count never falls, and stands still at 2^64-1.
    pub fn faults(&self) -> u64
        ensures { result ≡ self.now.faults }
    {
        self.faults
    }

    /// The keeper of a shard. Without a store it is in memory and has no rows. With one it is over the file
    /// `shard-K-of-N.db` in the store's folder, which is made where it isn't there.
    ///
    /// [`OpenFault::Failed`] comes only where the count of faults rose, and any other answer leaves the count: the folder
    /// isn't there, or has a file of a shard among another number of shards; the file can't be read or written, another
    /// process has it open, it is no sound database, or it holds anything but the one table of rows.
    /// [`OpenFault::NoMemory`] comes for want of memory.
    pub fn keeper(
        &mut self,
        store: Option<&Text>,
        shard: u32,
        shards: u32,
    ) -> Result<ShardKeeper, OpenFault>
        ensures cause { HasOpenCause self.old.faults self.new.faults result }
        ensures memory { option_copied store.entry ≡ None → result ≡ Ok (made.Memory finite.empty) }
    {
        let Some(folder) = store else {
            return Ok(ShardKeeper::Memory(NeverFailingKeeper::new(self.rt.alloc())));
        };
        match opened(self.rt, folder.as_str(), shard, shards) {
            Ok(keeper) => Ok(ShardKeeper::File(keeper)),
            Err(fault) => self.refused(fault),
        }
    }

    /// Takes a keeper back: that of a file is closed, and its log copied into it. It takes no memory, and tells how often
    /// the keeper has failed. That the log isn't copied is a fault of the keeper; what it has is read when the file is opened
    /// the next time.
    pub fn keeper_back(&mut self, keeper: ShardKeeper) -> u64
        ensures faults { faults_of keeper ≤ result }
        ensures kept { self.new ≡ self.old }
    {
        match keeper {
            ShardKeeper::Memory(keeper) => {
                drop(keeper);
                0
            }
            ShardKeeper::File(keeper) => keeper.close(),
        }
    }

    // What comes of a keeper that couldn't be made. Want of memory aside, it is counted.
    fn refused(&mut self, fault: OpenFault) -> Result<ShardKeeper, OpenFault>
        ensures { HasOpenCause self.old.faults self.new.faults result }
    {
        if fault == OpenFault::Failed {
            self.faults = self.faults.saturating_add(1);
        }
        Err(fault)
    }
}

// The keeper over a shard's file, in a folder that has no file of a shard among another number of shards.
fn opened(rt: HostRuntime, folder: &str, shard: u32, shards: u32) -> Result<SqliteKeeper, OpenFault>
    ensures { IfOk result (λ keeper. keeper ≡ 0) }
{
    if has_others_told(&rt, folder, shards)? {
        return Err(OpenFault::Failed);
    }
    let Ok(path) = path_of(rt.alloc(), folder, shard, shards) else {
        return Err(OpenFault::NoMemory);
    };
    match SqliteKeeper::open(rt, path.into_string(), 0) {
        Ok(keeper) => Ok(keeper),
        Err(error) => Err(fault_of(error)),
    }
}

fn has_others_told(rt: &HostRuntime, folder: &str, shards: u32) -> Result<bool, OpenFault> {
    match has_others(rt, folder, shards) {
        Ok(has) => Ok(has),
        Err(error) if error.kind() == ErrorKind::OutOfMemory => Err(OpenFault::NoMemory),
        Err(_) => Err(OpenFault::Failed),
    }
}

fn fault_of(error: Error) -> OpenFault {
    match error {
        Error::SqliteFailure(ErrorCode::OutOfMemory) => OpenFault::NoMemory,
        _ => OpenFault::Failed,
    }
}
