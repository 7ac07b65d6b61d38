//! A file as an organisation keeps it.
ghost use Rattle.std.specs.Prelude.{◌≡◌, IfOk};

use crate::hashed::Hashed;
use doc_tree::NoMemory;
use std::alloc::Global;

/// A file as an organisation keeps it.
#[derive(Drop)]
pub struct Stored {
    /// The file, which is kept under its checksum.
    pub file: Hashed,
    /// Whether a sandbox that lists it was committed.
    pub committed: bool,
}

impl Stored {
    /// An equal file with memory of its own, committed if this one is.
    pub fn copy(&self, alloc: Global) -> Result<Stored, NoMemory>
        ensures { IfOk result (λ stored. stored ≡ self.now) }
    {
        Ok(Stored {
            file: self.file.copy(alloc)?,
            committed: self.committed,
        })
    }
}
