//! The files of a folder in which the rows of shards are kept.

ghost use Rattle.std.specs.Prelude.{◌≡◌, IfOk};
ghost use Rattle.keeper_sqlite.specs.Files.{path_of};

use doc_tree::{NoMemory, Text};
use std::alloc::Global;
use std::fs::{DirEntry, ReadDir};
use std::{fs, io};

/// The path of a shard's file: `shard-K-of-N.db` in the folder.
pub(crate) fn path_of(
    alloc: Global,
    folder: &str,
    shard: u32,
    shards: u32,
) -> Result<Text, NoMemory>
    ensures { IfOk result (λ path. path ≡ path_of folder.now shard shards) }
{
    Ok(Text::of(format!(in alloc; "{folder}/shard-{shard}-of-{shards}.db")?))
}

/// Whether a folder has a file of a shard among another number of shards.
pub(crate) fn has_others(rt: &HostRuntime, folder: &str, shards: u32) -> io::Result<bool> {
    let mut entries = fs::read_dir(rt, folder)?;
    any_is_of_others(&mut entries, shards)
}

fn any_is_of_others(entries: &mut ReadDir, shards: u32) -> io::Result<bool> {
    for entry in entries {
        if is_told_of_others(entry, shards)? {
            return Ok(true);
        }
    }
    Ok(false)
}

fn is_told_of_others(entry: io::Result<DirEntry>, shards: u32) -> io::Result<bool> {
    match entry {
        Ok(entry) => Ok(is_of_others(entry.file_name(), shards)),
        Err(error) => Err(error),
    }
}

fn is_of_others(name: &str, shards: u32) -> bool {
    match shards_of(name) {
        Some(others) => others != shards,
        None => false,
    }
}

// The N of a name `shard-K-of-N.db`.
fn shards_of(name: &str) -> Option<u32> {
    let (shard, shards) = name
        .strip_prefix("shard-")?
        .strip_suffix(".db")?
        .split_once("-of-")?;
    if shard.parse::<u32>().is_err() {
        return None;
    }
    shards.parse::<u32>().ok()
}
