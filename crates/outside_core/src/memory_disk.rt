//! The disk in memory.

ghost use Rattle.std.specs.Prelude.{◌≡◌, ◌<◌, [], IfOk, OnOk, OnErr, Some, is_err, true, length, option_copied, bytes_eq};
ghost use Rattle.indexmap.specs.IndexMap.{insert_entry};
ghost use Rattle.outside_core.specs.Failed.{HasCause};
ghost use Rattle.outside_core.specs.Failures.{planned, after_call};
ghost use Rattle.outside_core.specs.Disk.{IsFile, Replaces, Spoils, IsListing, HasDiskCause};
ghost use Rattle.outside_core.specs.MemoryDisk.{files_in};

use crate::failures::Failures;
use crate::listing::list_below;
use crate::{Disk, DiskFault, Failed};
use doc_tree::{Bytes, NoMemory, Text, Texts};
use indexmap::IndexMap;
use std::alloc::Global;
use std::marker::Model;

/// Files in memory, with room for the bytes that are to be written, of which some calls fail.
///
/// A planned failure changes no file. A write of more bytes than there is room fails, as one that finds no memory does,
/// and each of these raises the count. Contracts see it as its files, the room that is left, and its failures.
#[derive(Drop)]
pub struct MemDisk {
    alloc: Global,
    files: IndexMap<Text, Bytes>,
    room: usize,
    failures: Failures,
}

impl Model for MemDisk {
    ghost use Rattle.outside_core.specs.MemoryDisk.{HeldFiles};

    ghost Value = { HeldFiles };

    ghost view = { λ d. record { entries = d.files.entries; room = d.room; failures = d.failures } };
}

impl MemDisk {
    /// A disk without files and with this room. It fails at the calls with these numbers; the first call is number 1.
    pub fn new(alloc: Global, failing: Vec<u64>, room: usize) -> Self
        ensures { result ≡ record { entries = []; room = room; failures = planned failing.items } }
    {
        MemDisk {
            alloc,
            files: IndexMap::new(alloc),
            room,
            failures: Failures::planned(failing),
        }
    }

    /// Puts a file in, which is no call of the disk, and takes none of its room.
    pub fn put(&mut self, name: Text, bytes: Bytes) -> Result<(), NoMemory>
        ensures ok { OnOk result (self.new ≡ record self.old { entries = insert_entry bytes_eq self.old.entries name bytes }) }
        ensures err { OnErr result (self.new ≡ self.old) }
    {
        self.files.insert(name, bytes)?;
        Ok(())
    }

    /// The bytes of a file, where it is there. This is no call of the disk.
    pub fn file(&self, name: &Text) -> Option<&Bytes>
        ensures { option_copied result ≡ files_in self.now.entries name.now }
    {
        self.files.get(name)
    }

    // Puts a copy in, and takes its room.
    fn put_copy(&mut self, name: &Text, bytes: &[u8]) -> Result<(), NoMemory>
        ensures ok { OnOk result (self.new.entries ≡ insert_entry bytes_eq self.old.entries name.now bytes.now) }
        ensures err { OnErr result (self.new ≡ self.old) }
        ensures failures { self.new.failures ≡ self.old.failures }
    {
        let name = name.copy(self.alloc)?;
        let copy = Bytes::from_slice(self.alloc, bytes)?;
        self.put(name, copy)?;
        self.room = self.room.saturating_sub(bytes.len());
        Ok(())
    }
}

impl Disk for MemDisk {
    ghost files = { λ d. Some (files_in d.entries) };

    ghost faults = { λ d. d.failures.faults };

    fn read(&mut self, alloc: Global, name: &Text) -> Result<Option<Bytes>, DiskFault>
        ensures file { IfOk result (IsFile (Some (files_in self.old.entries)) name.now) }
        ensures kept { Some (files_in self.new.entries) ≡ Some (files_in self.old.entries) }
        ensures cause { HasDiskCause self.old.failures.faults self.new.failures.faults result }
        ensures counted { self.new ≡ record self.old { failures = after_call self.old.failures } }
    {
        self.failures.call()?;
        match self.files.get(name) {
            Some(bytes) => Ok(Some(bytes.copy(alloc)?)),
            None => Ok(None),
        }
    }

    fn write(&mut self, name: &Text, bytes: &[u8]) -> Result<(), Failed>
        ensures ok { OnOk result (Replaces name.now bytes.now (Some (files_in self.old.entries)) (Some (files_in self.new.entries))) }
        ensures unchanged { OnErr result (self.new.entries ≡ self.old.entries) }
        ensures failed { OnErr result (Spoils name.now (Some (files_in self.old.entries)) (Some (files_in self.new.entries))) }
        ensures cause { HasCause self.old.failures.faults self.new.failures.faults result }
        ensures unfailed { OnOk result (self.new.failures.faults ≡ self.old.failures.faults) }
        ensures beyond { self.old.room < length bytes.now → is_err result ≡ true }
    {
        self.failures.call()?;
        if bytes.len() <= self.room && self.put_copy(name, bytes).is_ok() {
            return Ok(());
        }
        self.failures.fault();
        Err(Failed)
    }

    fn list(&mut self, alloc: Global, folder: &Text) -> Result<Option<Texts>, DiskFault>
        ensures listing { IfOk result (IsListing (Some (files_in self.old.entries)) folder.now) }
        ensures kept { Some (files_in self.new.entries) ≡ Some (files_in self.old.entries) }
        ensures cause { HasDiskCause self.old.failures.faults self.new.failures.faults result }
        ensures counted { self.new ≡ record self.old { failures = after_call self.old.failures } }
    {
        self.failures.call()?;
        Ok(list_below(alloc, &self.files, folder)?)
    }
}
