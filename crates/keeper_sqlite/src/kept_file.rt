//! A file of rows, which is opened again where a failure of the disk closed it.

use crate::table::Table;
use outside_keeper::{Change, Rows};
use sqlite::{Error, ErrorCode};
use std::alloc::Global;

const CLOSED: Error = Error::SqliteFailure(ErrorCode::Closed);

/// A file of rows. After a failure that closed its database, as one of a flush, the next call opens it again.
pub(crate) struct KeptFile {
    rt: HostRuntime,
    path: String,
    // None from such a failure on, until the file is open again.
    table: Option<Table>,
}

// It is written out, so that a caller doesn't prove again how its parts are dropped.
impl Drop for KeptFile {
    fn drop(self) {
        let KeptFile {
            rt: _,
            path: _,
            table: _,
        } = self;
    }
}

impl KeptFile {
    /// Opens the file at a path, or makes it.
    pub(crate) fn open(rt: HostRuntime, path: String) -> Result<KeptFile, Error> {
        let table = Table::open(&rt, path.as_str())?;
        Ok(KeptFile {
            rt,
            path,
            table: Some(table),
        })
    }

    /// All rows, in the order of their keys.
    pub(crate) fn load(&mut self, alloc: Global) -> Result<Rows, Error> {
        match self.load_once(alloc) {
            Err(CLOSED) => {
                self.table = None;
                self.load_once(alloc)
            }
            answer => answer,
        }
    }

    /// Makes all the changes, or none.
    pub(crate) fn commit(&mut self, changes: &[Change]) -> Result<(), Error> {
        match self.commit_once(changes) {
            Err(CLOSED) => {
                self.table = None;
                self.commit_once(changes)
            }
            answer => answer,
        }
    }

    /// Copies what the log has into the file, and closes both.
    pub(crate) fn close(self) -> Result<(), Error> {
        let KeptFile {
            rt: _,
            path: _,
            table,
        } = self;
        match table {
            Some(table) => table.close(),
            None => Err(CLOSED),
        }
    }

    fn load_once(&mut self, alloc: Global) -> Result<Rows, Error> {
        self.open_again()?;
        match &mut self.table {
            Some(table) => table.load(alloc),
            None => Err(CLOSED),
        }
    }

    fn commit_once(&mut self, changes: &[Change]) -> Result<(), Error> {
        self.open_again()?;
        match &mut self.table {
            Some(table) => table.commit(changes),
            None => Err(CLOSED),
        }
    }

    fn open_again(&mut self) -> Result<(), Error> {
        if self.table.is_none() {
            self.table = Some(Table::open_again(&self.rt, self.path.as_str())?);
        }
        Ok(())
    }
}
