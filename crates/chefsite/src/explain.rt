//! The command `explain`: it merges the layers of a sources file, and prints each leaf with the layers that it comes
//! from.

ghost use Rattle.std.specs.Prelude.{◌≡◌, ◌≢◌, IfOk, Err, None};
ghost use Rattle.outside_core.specs.Failed.{Rose};
ghost use Rattle.attr_merge.specs.Lines.{Explains};
ghost use Rattle.attr_merge.specs.Sources.{layers_in};
ghost use Rattle.chefsite.specs.Explaining.{SaysOfFile, HasFileCause, IsBadFile, IsExplainedBy};

use crate::statuses::Status;
use attr_merge::SourcesFault;
use doc_tree::{Bytes, Text};
use outside_core::{Disk, DiskFault, Failed, Sink};
use std::alloc::Global;

/// Why there are no lines to print.
#[derive(Clone, Copy, Debug, PartialEq, Eq)]
pub(crate) enum NoLines {
    /// The file isn't there, or its bytes aren't sources.
    BadFile,
    /// The file couldn't be read.
    ReadFault,
    /// Memory ran out.
    NoMemory,
}

/// Prints the lines that explain the sources file of this name. All memory is taken before the first is written.
pub(crate) fn explain<U: Sink, F: Disk>(
    alloc: Global,
    file: &str,
    output: &mut U,
    files: &mut F,
) -> Status
    ensures says { SaysOfFile result (F.files files.old) file.now (U.gained output.old) (U.gained output.new) }
    ensures cause { HasFileCause result (F.faults files.old) (F.faults files.new) (U.faults output.old) (U.faults output.new) }
    ensures kept { F.files files.new ≡ F.files files.old }
{
    match lines_of(alloc, file, files) {
        Ok(lines) => match output.write(lines.as_slice()) {
            Ok(()) => Status::Done,
            Err(Failed) => Status::WriteFault,
        },
        Err(NoLines::BadFile) => Status::BadFile,
        Err(NoLines::ReadFault) => Status::ReadFault,
        Err(NoLines::NoMemory) => Status::NoMemory,
    }
}

// The lines that explain the file of this name.
fn lines_of<F: Disk>(alloc: Global, file: &str, files: &mut F) -> Result<Bytes, NoLines>
    ensures lines { IfOk result (IsExplainedBy (F.files files.old) file.now) }
    ensures bad_file { result ≡ Err NoLines.BadFile → IsBadFile (F.files files.old) file.now }
    ensures read_fault { result ≡ Err NoLines.ReadFault → Rose (F.faults files.old) (F.faults files.new) }
    ensures unfailed { result ≢ Err NoLines.ReadFault → F.faults files.new ≡ F.faults files.old }
    ensures kept { F.files files.new ≡ F.files files.old }
{
    let Ok(name) = Text::from_str(alloc, file) else {
        return Err(NoLines::NoMemory);
    };
    match files.read(alloc, &name) {
        Ok(Some(bytes)) => lines_in(alloc, &bytes),
        Ok(None) => Err(NoLines::BadFile),
        Err(DiskFault::Failed) => Err(NoLines::ReadFault),
        Err(DiskFault::NoMemory) => Err(NoLines::NoMemory),
    }
}

// The lines that explain these bytes.
fn lines_in(alloc: Global, bytes: &Bytes) -> Result<Bytes, NoLines>
    ensures lines { IfOk result (Explains bytes.now) }
    ensures bad_file { result ≡ Err NoLines.BadFile → layers_in bytes.now ≡ None }
    ensures read { result ≢ Err NoLines.ReadFault }
{
    match attr_merge::explain(alloc, bytes.as_slice()) {
        Ok(lines) => Ok(lines),
        Err(SourcesFault::NotSources) => Err(NoLines::BadFile),
        Err(SourcesFault::NoMemory) => Err(NoLines::NoMemory),
    }
}
