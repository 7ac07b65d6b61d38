//! What is sent of the file that an errand names.
ghost use Rattle.std.specs.Prelude.{◌≡◌, ◌≢◌, Err, Some};
ghost use Rattle.knife_core.specs.Unsent.{IsBad, IsSentOf, SentIn, HasUnsentCause};

use doc_tree::{Bytes, NoMemory, Text};
use knife_errands::{FileFault, FileKind, Sent, sent_of};
use outside_core::{Disk, DiskFault};
use peer_wire::Whom;
use std::alloc::Global;

/// Why nothing is sent.
#[derive(Drop)]
pub(crate) enum Unsent {
    /// The disk failed, and counted it.
    DiskFault,
    /// Memory ran out.
    NoMemory,
    /// The file of this name isn't there, or hasn't its form.
    BadFile(Text),
}

/// What is sent of the file of this name.
pub(crate) fn sent_in<D: Disk>(
    alloc: Global,
    whom: &Whom,
    kind: &FileKind,
    file: &Text,
    disk: &mut D,
) -> Result<Sent, Unsent>
    ensures sent { SentIn whom.now kind.now file.now (D.files disk.old) result }
    ensures kept { D.files disk.new ≡ D.files disk.old }
    ensures cause { HasUnsentCause (D.faults disk.old) (D.faults disk.new) result }
{
    match disk.read(alloc, file) {
        Ok(Some(bytes)) => sent_from(alloc, whom, kind, file, &bytes),
        Ok(None) => Err(bad_file(alloc, file)),
        Err(DiskFault::Failed) => Err(Unsent::DiskFault),
        Err(DiskFault::NoMemory) => Err(Unsent::NoMemory),
    }
}

fn sent_from(
    alloc: Global,
    whom: &Whom,
    kind: &FileKind,
    file: &Text,
    bytes: &Bytes,
) -> Result<Sent, Unsent>
    ensures sent { IsSentOf whom.now kind.now file.now (Some bytes.now) result }
    ensures read { result ≢ Err Unsent.DiskFault }
{
    match sent_of(alloc, kind, whom, bytes) {
        Ok(sent) => Ok(sent),
        Err(FileFault::BadFile) => Err(bad_file(alloc, file)),
        Err(FileFault::NoMemory) => Err(Unsent::NoMemory),
    }
}

// The file is bad, or there is no memory for its name.
fn bad_file(alloc: Global, file: &Text) -> Unsent
    ensures { IsBad file.now result }
{
    match file.copy(alloc) {
        Ok(name) => Unsent::BadFile(name),
        Err(NoMemory) => Unsent::NoMemory,
    }
}
