//! The table of a database file, in which rows are kept.

use doc_tree::{Bytes, NoMemory, Text};
use outside_keeper::{Change, RowKey, Rows};
use sqlite::{
    Connection, Error, ErrorCode, File, FileStore, Row, Rows as Found, Statement, Transaction,
    params,
};
use std::alloc::Global;

type Store = FileStore<File>;

/// The database of an open file with its one table, and the statements over it.
pub(crate) struct Table {
    conn: Connection<Store>,
    statements: Statements,
}

// The three statements, each prepared once.
struct Statements {
    load: Statement,
    put: Statement,
    erase: Statement,
}

// Both are written out, so that what holds one doesn't prove again how its parts are dropped.
impl Drop for Table {
    fn drop(self) {
        let Table {
            conn: _,
            statements: _,
        } = self;
    }
}

impl Drop for Statements {
    fn drop(self) {
        let Statements {
            load: _,
            put: _,
            erase: _,
        } = self;
    }
}

/// By this text the table is made, and is known again.
const MAKE: &str =
    "CREATE TABLE kept (org TEXT NOT NULL, kind TEXT NOT NULL, name TEXT NOT NULL, body BLOB NOT NULL, PRIMARY KEY (org, kind, name)) STRICT";

// What a table brings with it has no text.
const MADE: &str = "SELECT sql FROM sqlite_schema WHERE sql IS NOT NULL";

const LOAD: &str = "SELECT org, kind, name, body FROM kept ORDER BY org, kind, name";

const PUT: &str =
    "INSERT INTO kept VALUES (?1, ?2, ?3, ?4) ON CONFLICT (org, kind, name) DO UPDATE SET body = excluded.body";

const ERASE: &str = "DELETE FROM kept WHERE org = ?1 AND kind = ?2 AND name = ?3";

// The file holds something else than the rows of a keeper.
const OTHER_FORM: Error = Error::SqliteFailure(ErrorCode::NotADatabase);

impl Table {
    /// Opens the file at a path, which is made where it isn't there and then has sums on its pages. It is refused where it
    /// holds anything but the one table.
    pub(crate) fn open(rt: &HostRuntime, path: &str) -> Result<Table, Error> {
        let mut conn = Connection::open_with_sums(rt, path)?;
        let statements = made_and_prepared(&mut conn);
        with_statements(conn, statements)
    }

    /// Opens the file again that was open at a path. It is refused where it doesn't hold the one table.
    pub(crate) fn open_again(rt: &HostRuntime, path: &str) -> Result<Table, Error> {
        let mut conn = Connection::open_with_sums(rt, path)?;
        let statements = found_and_prepared(&mut conn);
        with_statements(conn, statements)
    }

    /// All rows, in the order of their keys.
    pub(crate) fn load(&mut self, alloc: Global) -> Result<Rows, Error> {
        let mut rows = Rows::new(alloc);
        match read_all(&self.statements.load, &mut self.conn, &mut rows) {
            Ok(()) => Ok(rows),
            Err(error) => {
                drop(rows);
                Err(error)
            }
        }
    }

    /// Makes all the changes in one transaction, which is on the disk where this is `Ok`.
    pub(crate) fn commit(&mut self, changes: &[Change]) -> Result<(), Error> {
        // Whatever ended before, no transaction is open.
        if !self.conn.is_autocommit() {
            return Err(Error::SqliteFailure(ErrorCode::TransactionState));
        }
        let mut transaction = self.conn.transaction();
        match make_all(&mut transaction, &self.statements, changes) {
            Ok(()) => transaction.commit(),
            Err(error) => {
                // It is rolled back.
                drop(transaction);
                Err(error)
            }
        }
    }

    /// Copies what the log has into the file, and closes both.
    pub(crate) fn close(self) -> Result<(), Error> {
        let Table {
            conn,
            statements: _,
        } = self;
        conn.close()
    }
}

// A table over a database whose statements are prepared. Where they couldn't be, the database is closed.
fn with_statements(
    conn: Connection<Store>,
    statements: Result<Statements, Error>,
) -> Result<Table, Error> {
    match statements {
        Ok(statements) => Ok(Table { conn, statements }),
        Err(error) => {
            drop(conn);
            Err(error)
        }
    }
}

// Makes the table where there is none yet, and prepares the statements over it.
fn made_and_prepared(conn: &mut Connection<Store>) -> Result<Statements, Error> {
    if is_empty(conn)? {
        make(conn)?;
    }
    prepared(conn)
}

fn found_and_prepared(conn: &mut Connection<Store>) -> Result<Statements, Error> {
    if is_empty(conn)? {
        return Err(OTHER_FORM);
    }
    prepared(conn)
}

// Whether a database has no table yet. One that has others than the one table is refused.
fn is_empty(conn: &mut Connection<Store>) -> Result<bool, Error> {
    let made = conn.query_all(MADE, &[])?;
    is_none_made(made.as_slice())
}

fn is_none_made(made: &[Row]) -> Result<bool, Error> {
    match made {
        [] => Ok(true),
        [only] if is_made_by(only, MAKE)? => Ok(false),
        _ => Err(OTHER_FORM),
    }
}

fn make(conn: &mut Connection<Store>) -> Result<(), Error> {
    conn.execute(MAKE, &[])?;
    Ok(())
}

fn is_made_by(row: &Row, text: &str) -> Result<bool, Error> {
    let made: String = row.get(0)?;
    Ok(made.as_str() == text)
}

fn prepared(conn: &mut Connection<Store>) -> Result<Statements, Error> {
    let load = conn.prepare(LOAD)?;
    with_load(load, conn)
}

fn with_load(load: Statement, conn: &mut Connection<Store>) -> Result<Statements, Error> {
    match put_and_erase(conn) {
        Ok((put, erase)) => Ok(Statements { load, put, erase }),
        Err(error) => {
            drop(load);
            Err(error)
        }
    }
}

fn put_and_erase(conn: &mut Connection<Store>) -> Result<(Statement, Statement), Error> {
    let put = conn.prepare(PUT)?;
    match conn.prepare(ERASE) {
        Ok(erase) => Ok((put, erase)),
        Err(error) => {
            drop(put);
            Err(error)
        }
    }
}

fn read_all(load: &Statement, conn: &mut Connection<Store>, rows: &mut Rows) -> Result<(), Error> {
    let mut found = load.query(conn, &[])?;
    let answer = add_all(&mut found, rows);
    drop(found);
    answer
}

fn add_all(found: &mut Found<'_, Store>, rows: &mut Rows) -> Result<(), Error> {
    for _ in 0..u64::MAX {
        if !add_next(found, rows)? {
            return Ok(());
        }
    }
    Err(Error::SqliteFailure(ErrorCode::TooBig))
}

// Adds the next row that is found, if there is one.
fn add_next(found: &mut Found<'_, Store>, rows: &mut Rows) -> Result<bool, Error> {
    match found.next()? {
        Some(row) => add(row, rows).and(Ok(true)),
        None => Ok(false),
    }
}

// Adds a row behind those that were read.
fn add(row: &Row, rows: &mut Rows) -> Result<(), Error> {
    let key = key_of(row)?;
    add_above(key, row, rows)
}

fn add_above(key: RowKey, row: &Row, rows: &mut Rows) -> Result<(), Error> {
    if !rows.is_above(&key) {
        drop(key);
        return Err(Error::SqliteFailure(ErrorCode::DatabaseCorrupt));
    }
    match body_of(row) {
        Ok(body) => pushed(rows.push(key, body)),
        Err(error) => {
            drop(key);
            Err(error)
        }
    }
}

fn pushed(answer: Result<(), NoMemory>) -> Result<(), Error> {
    match answer {
        Ok(()) => Ok(()),
        Err(NoMemory) => Err(Error::SqliteFailure(ErrorCode::OutOfMemory)),
    }
}

fn key_of(row: &Row) -> Result<RowKey, Error> {
    let org = text_at(row, 0)?;
    let kind = text_at(row, 1)?;
    let name = text_at(row, 2)?;
    Ok(RowKey { org, kind, name })
}

fn text_at(row: &Row, column: usize) -> Result<Text, Error> {
    Ok(Text::of(row.get(column)?))
}

fn body_of(row: &Row) -> Result<Bytes, Error> {
    Ok(Bytes::of(row.get(3)?))
}

fn make_all(
    transaction: &mut Transaction<'_, Store>,
    statements: &Statements,
    changes: &[Change],
) -> Result<(), Error> {
    for change in changes {
        make_one(transaction, statements, change)?;
    }
    Ok(())
}

fn make_one(
    transaction: &mut Transaction<'_, Store>,
    statements: &Statements,
    change: &Change,
) -> Result<(), Error> {
    match change {
        Change::Put(key, body) => put_row(transaction, &statements.put, key, body),
        Change::Erase(key) => erase_row(transaction, &statements.erase, key),
    }
}

fn put_row(
    transaction: &mut Transaction<'_, Store>,
    put: &Statement,
    key: &RowKey,
    body: &Bytes,
) -> Result<(), Error> {
    transaction.execute_prepared(
        put,
        params![
            key.org.as_str(),
            key.kind.as_str(),
            key.name.as_str(),
            body.as_slice()
        ],
    )?;
    Ok(())
}

fn erase_row(
    transaction: &mut Transaction<'_, Store>,
    erase: &Statement,
    key: &RowKey,
) -> Result<(), Error> {
    transaction.execute_prepared(
        erase,
        params![key.org.as_str(), key.kind.as_str(), key.name.as_str()],
    )?;
    Ok(())
}
