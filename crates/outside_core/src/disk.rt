//! What a disk is, and what its calls promise.

ghost use Rattle.std.specs.Prelude.{◌≡◌, ℕ, IfOk, OnOk, OnErr};
ghost use Rattle.std.specs.declared.option.Option.{Option};
ghost use Rattle.outside_core.specs.Failed.{HasCause};
ghost use Rattle.outside_core.specs.Disk.{Files, IsFile, Replaces, Spoils, IsListing, HasDiskCause};

use crate::{DiskFault, Failed};
use doc_tree::{Bytes, Text, Texts};
use std::alloc::Global;

/// Something that keeps files by their names, as a folder of the operating system or a map in memory. A call changes
/// nothing that is told but what is said of it.
pub trait Disk {
    /// The files, by their names, where it tells them.
    ghost files: { Self → Option Files };

    /// How often it has failed. The count never falls, and stands still at 2^64-1.
    ghost faults: { Self → ℕ };

    /// The bytes of the file of this name, or `None` where no such file is there.
    ///
    /// [`DiskFault::Failed`] comes only where the count of faults rose, and any other answer leaves the count.
    fn read(&mut self, alloc: Global, name: &Text) -> Result<Option<Bytes>, DiskFault>
        ensures file { IfOk result (IsFile (files self.old) name.now) }
        ensures kept { files self.new ≡ files self.old }
        ensures cause { HasDiskCause (faults self.old) (faults self.new) result };

    /// Writes a file, in place of one that has its name.
    ///
    /// [`Failed`] has left that file with any bytes or none, and comes only where the count of faults rose. A write that was
    /// done leaves the count.
    fn write(&mut self, name: &Text, bytes: &[u8]) -> Result<(), Failed>
        ensures ok { OnOk result (Replaces name.now bytes.now (files self.old) (files self.new)) }
        ensures failed { OnErr result (Spoils name.now (files self.old) (files self.new)) }
        ensures cause { HasCause (faults self.old) (faults self.new) result }
        ensures unfailed { OnOk result (faults self.new ≡ faults self.old) };

    /// The files below a folder, named from it, in the order of their bytes and each once: of the folder `a`, the file
    /// `a/b/c` is `b/c`. `None` where no such folder is there.
    ///
    /// Where files are told, a folder is there exactly where a file is below it, so what is listed is never empty. A name
    /// that ends in the slash behind the folder is that of no file below it. [`DiskFault::Failed`] comes only where the
    /// count of faults rose, and any other answer leaves the count.
    fn list(&mut self, alloc: Global, folder: &Text) -> Result<Option<Texts>, DiskFault>
        ensures listing { IfOk result (IsListing (files self.old) folder.now) }
        ensures kept { files self.new ≡ files self.old }
        ensures cause { HasDiskCause (faults self.old) (faults self.new) result };
}
