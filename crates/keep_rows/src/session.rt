//! What the commands of a run work on: what makes keepers, the keeper that is open, and the changes that wait.

use crate::command::{Command, KeyWords};
use doc_tree::{Bytes, NoMemory, Text};
use keeper_sqlite::{ShardKeeper, ShardKeepers};
use outside_keeper::{Change, Changes, KeepFault, Keeper, OpenFault, Row, RowKey, Rows};
use std::alloc::Global;

pub(crate) struct Session {
    alloc: Global,
    makers: ShardKeepers,
    keeper: Option<ShardKeeper>,
    changes: Changes,
}

// It is written out, so that a caller doesn't prove again how its parts are dropped.
impl Drop for Session {
    fn drop(self) {
        let Session {
            alloc: _,
            makers: _,
            keeper: _,
            changes: _,
        } = self;
    }
}

/// How a call ended, in words.
#[derive(Clone, Copy)]
enum Ending {
    Done,
    Failed,
    NoMemory,
    NoKeeper,
}

impl Session {
    /// No keeper is open, and no change waits.
    pub(crate) fn new(rt: HostRuntime) -> Session {
        Session {
            alloc: rt.alloc(),
            makers: ShardKeepers::new(rt),
            keeper: None,
            changes: Changes::new(rt.alloc()),
        }
    }

    /// Runs a command. What it answers is added to what is told: lines of which the last one says how it ended.
    pub(crate) fn run(&mut self, command: Command<'_>, told: &mut Vec<u8>) -> Result<(), NoMemory> {
        match command {
            Command::Open {
                shard,
                shards,
                folder,
            } => self.open(shard, shards, folder, told),
            Command::Load => self.load(told),
            Command::Put { key, body } => self.put(key, body),
            Command::Erase { key } => self.erase(key),
            Command::Commit => self.commit(told),
            Command::Faults => self.tell_faults(told),
            Command::Close => self.tell_close(told),
        }
    }

    /// Gives the keeper back, and tells how often it has failed.
    pub(crate) fn close(&mut self) -> u64 {
        match self.keeper.take() {
            Some(keeper) => self.makers.keeper_back(keeper),
            None => 0,
        }
    }

    fn open(
        &mut self,
        shard: u32,
        shards: u32,
        folder: &str,
        told: &mut Vec<u8>,
    ) -> Result<(), NoMemory> {
        self.close();
        let folder = Text::from_str(self.alloc, folder)?;
        let ending = match self.makers.keeper(Some(&folder), shard, shards) {
            Ok(keeper) => {
                self.keeper = Some(keeper);
                Ending::Done
            }
            Err(OpenFault::Failed) => Ending::Failed,
            Err(OpenFault::NoMemory) => Ending::NoMemory,
        };
        tell(told, ending)
    }

    fn load(&mut self, told: &mut Vec<u8>) -> Result<(), NoMemory> {
        let Some(keeper) = &mut self.keeper else {
            return tell(told, Ending::NoKeeper);
        };
        match keeper.load(self.alloc) {
            Ok(rows) => tell_rows(told, rows),
            Err(fault) => tell(told, ending_of(fault)),
        }
    }

    fn put(&mut self, key: KeyWords<'_>, body: &str) -> Result<(), NoMemory> {
        let key = key_of(self.alloc, key)?;
        let body = Bytes::of(Vec::from_slice(self.alloc, body.as_bytes())?);
        self.changes.push(Change::Put(key, body))
    }

    fn erase(&mut self, key: KeyWords<'_>) -> Result<(), NoMemory> {
        let key = key_of(self.alloc, key)?;
        self.changes.push(Change::Erase(key))
    }

    // The changes that wait are gone, whether they were made or not.
    fn commit(&mut self, told: &mut Vec<u8>) -> Result<(), NoMemory> {
        let Some(keeper) = &mut self.keeper else {
            return tell(told, Ending::NoKeeper);
        };
        let ending = match keeper.commit(self.alloc, &self.changes) {
            Ok(()) => Ending::Done,
            Err(fault) => ending_of(fault),
        };
        self.changes = Changes::new(self.alloc);
        tell(told, ending)
    }

    fn tell_faults(&self, told: &mut Vec<u8>) -> Result<(), NoMemory> {
        let made = self.makers.faults();
        let kept = match &self.keeper {
            Some(keeper) => keeper.faults(),
            None => 0,
        };
        write(told, format!(in self.alloc; "{made} {kept}\n")?)
    }

    fn tell_close(&mut self, told: &mut Vec<u8>) -> Result<(), NoMemory> {
        let kept = self.close();
        write(told, format!(in self.alloc; "{kept}\n")?)
    }
}

fn key_of(alloc: Global, key: KeyWords<'_>) -> Result<RowKey, NoMemory> {
    let org = Text::from_str(alloc, key.org)?;
    let kind = Text::from_str(alloc, key.kind)?;
    let name = Text::from_str(alloc, key.name)?;
    Ok(RowKey { org, kind, name })
}

fn ending_of(fault: KeepFault) -> Ending {
    match fault {
        KeepFault::Failed => Ending::Failed,
        KeepFault::NoMemory => Ending::NoMemory,
    }
}

fn tell(told: &mut Vec<u8>, ending: Ending) -> Result<(), NoMemory> {
    let line: &str = match ending {
        Ending::Done => "done\n",
        Ending::Failed => "failed\n",
        Ending::NoMemory => "no memory\n",
        Ending::NoKeeper => "no keeper\n",
    };
    add(told, line.as_bytes())
}

fn tell_rows(told: &mut Vec<u8>, rows: Rows) -> Result<(), NoMemory> {
    add_rows(told, rows.as_slice())?;
    tell(told, Ending::Done)
}

fn add_rows(told: &mut Vec<u8>, rows: &[Row]) -> Result<(), NoMemory> {
    for row in rows {
        add_row(told, row)?;
    }
    Ok(())
}

// ORG KIND NAME BODY
fn add_row(told: &mut Vec<u8>, row: &Row) -> Result<(), NoMemory> {
    let (key, body) = row;
    add_part(told, key.org.as_bytes(), b" ")?;
    add_part(told, key.kind.as_bytes(), b" ")?;
    add_part(told, key.name.as_bytes(), b" ")?;
    add_part(told, body.as_slice(), b"\n")
}

fn add_part(told: &mut Vec<u8>, part: &[u8], end: &[u8]) -> Result<(), NoMemory> {
    add(told, part)?;
    add(told, end)
}

fn write(told: &mut Vec<u8>, line: String) -> Result<(), NoMemory> {
    add(told, line.as_bytes())
}

fn add(told: &mut Vec<u8>, bytes: &[u8]) -> Result<(), NoMemory> {
    told.extend_from_slice(bytes)?;
    Ok(())
}
