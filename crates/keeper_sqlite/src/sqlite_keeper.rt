//! The keeper over a database file.

ghost use Rattle.std.specs.Prelude.{◌≡◌, ◌≤◌, None, IfOk};
ghost use Rattle.outside_keeper.specs.Keeper.{HasKeepCause};

use crate::kept_file::KeptFile;
use outside_keeper::{Changes, KeepFault, Keeper, Rows};
use sqlite::{Error, ErrorCode};
use std::alloc::Global;
use std::marker::Model;

/// The rows of a database file. It tells none of them. Each call that the database refuses is counted; that it found no
/// memory is no refusal. Contracts see it as that count.
///
/// All changes of a commit are one transaction, which is flushed to the disk before the call returns. After a failure that
/// closed the database, the next call opens the file again.
pub struct SqliteKeeper {
    file: KeptFile,
    faults: u64,
}

impl Model for SqliteKeeper {
    ghost use Rattle.std.specs.Prelude.{ℕ};

    ghost Value = { ℕ };

    ghost view = { λ k. k.faults };
}

// It is written out, so that a caller doesn't prove again how its parts are dropped.
impl Drop for SqliteKeeper {
    fn drop(self) {
        let SqliteKeeper { file: _, faults: _ } = self;
    }
}

impl SqliteKeeper {
    /// Opens the file at a path, or makes it, with a count of faults so far.
    pub(crate) fn open(rt: HostRuntime, path: String, faults: u64) -> Result<SqliteKeeper, Error>
        ensures { IfOk result (λ keeper. keeper ≡ faults) }
    {
        let file = KeptFile::open(rt, path)?;
        Ok(SqliteKeeper { file, faults })
    }

    /// Copies what the log has into the file and closes both, and tells how often it has failed. That the log isn't copied
    /// is a fault: its commits are read from it when the file is opened the next time.
    pub(crate) fn close(self) -> u64
        ensures { self ≤ result }
    {
        let SqliteKeeper { file, faults } = self;
        match file.close() {
            Ok(()) => faults,
            Err(_) => faults.saturating_add(1),
        }
    }

    // What comes of an answer of the database. Want of memory aside, an error is counted.
    fn told<T>(&mut self, answer: Result<T, Error>) -> Result<T, KeepFault>
        ensures { HasKeepCause self.old self.new result }
    {
        match answer {
            Ok(found) => Ok(found),
            Err(Error::SqliteFailure(ErrorCode::OutOfMemory)) => Err(KeepFault::NoMemory),
            Err(_) => {
                self.faults = self.faults.saturating_add(1);
                Err(KeepFault::Failed)
            }
        }
    }
}

impl Keeper for SqliteKeeper {
    ghost rows = { λ _. None };

    ghost faults = { λ k. k };

    fn load(&mut self, alloc: Global) -> Result<Rows, KeepFault> {
        let rows = self.file.load(alloc);
        self.told(rows)
    }

    fn commit(&mut self, _alloc: Global, changes: &Changes) -> Result<(), KeepFault> {
        let done = self.file.commit(changes.as_slice());
        self.told(done)
    }

    fn faults(&self) -> u64 {
        self.faults
    }
}
