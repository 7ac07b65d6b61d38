//! The disk over the operating system.

ghost use Rattle.std.specs.Prelude.{◌≡◌, None, Ok, IfOk, IfErr};
ghost use Rattle.std.specs.IoError.{error_kind};
ghost use Rattle.outside_core.specs.Disk.{HasDiskCause};
ghost use Rattle.outside_core.specs.SystemErrors.{IsToldAs};

use crate::listing::in_order;
use crate::walk::{files_below, is_absence};
use crate::{Disk, DiskFault, Failed};
use doc_tree::{Bytes, Text, Texts};
use std::alloc::Global;
use std::io::ErrorKind;
use std::rt::Files;
use std::{fs, io};

/// The files of the operating system, as named from the working folder. It tells none of them. Each call that the system
/// refuses is counted; that a file or folder isn't there, or that memory is wanting, is no refusal.
///
/// A listing has the regular files alone, follows no link, and fails where a name isn't UTF-8.
#[derive(Drop)]
pub struct FileDisk<R> {
    rt: R,
    faults: u64,
}

impl<R: Files + AllocGlobal + Clone + Drop> FileDisk<R> {
    /// The files that this runtime reaches, with no fault yet.
    pub fn new(rt: R) -> Self
        ensures { result ≡ record { rt = rt; faults = 0 } }
    {
        FileDisk { rt, faults: 0 }
    }

    // What comes of an answer of the system: what it found, or what its error is told as.
    fn told<T>(&mut self, answer: io::Result<Option<T>>) -> Result<Option<T>, DiskFault>
        ensures found { IfOk answer (λ found. result ≡ Ok found) }
        ensures error { IfErr answer (λ error. IsToldAs (error_kind error) result) }
        ensures cause { HasDiskCause self.old.faults self.new.faults result }
    {
        match answer {
            Ok(found) => Ok(found),
            Err(error) => self.told_error(error.kind()),
        }
    }

    // What an error of this kind is told as. Absence and want of memory aside, it is counted.
    fn told_error<T>(&mut self, kind: ErrorKind) -> Result<Option<T>, DiskFault>
        ensures error { IsToldAs kind result }
        ensures cause { HasDiskCause self.old.faults self.new.faults result }
    {
        if is_absence(kind) {
            return Ok(None);
        }
        if kind == ErrorKind::OutOfMemory {
            return Err(DiskFault::NoMemory);
        }
        self.faults = self.faults.saturating_add(1);
        Err(DiskFault::Failed)
    }
}

impl<R: Files + AllocGlobal + Clone + Drop> Disk for FileDisk<R> {
    ghost files = { λ _. None };

    ghost faults = { λ d. d.faults };

    fn read(&mut self, _alloc: Global, name: &Text) -> Result<Option<Bytes>, DiskFault> {
        let found = fs::read(&self.rt, name.as_str()).map(|bytes| Some(Bytes::of(bytes)));
        self.told(found)
    }

    fn write(&mut self, name: &Text, bytes: &[u8]) -> Result<(), Failed> {
        if fs::write(&self.rt, name.as_str(), bytes).is_ok() {
            return Ok(());
        }
        self.faults = self.faults.saturating_add(1);
        Err(Failed)
    }

    fn list(&mut self, _alloc: Global, folder: &Text) -> Result<Option<Texts>, DiskFault> {
        let found = files_below(&self.rt, folder.as_str()).map(|files| files.map(in_order));
        self.told(found)
    }
}
