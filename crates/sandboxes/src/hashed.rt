//! Files that know their checksum.
ghost use Rattle.std.specs.Prelude.{◌≡◌, length, IfOk};
ghost use Rattle.sandboxes.specs.Checksums.{checksum_of};

use crate::checksum::Checksum;
use doc_tree::{Bytes, NoMemory};
use std::alloc::Global;
use std::marker::Model;

/// The bytes of a file, with their checksum: contracts see the bytes, of which the checksum is the
/// MD5 as a text.
#[derive(Drop)]
pub struct Hashed {
    bytes: Bytes,
    digest: Checksum,
}

impl Model for Hashed {
    ghost use Rattle.std.specs.Prelude.{◌≡◌, List, ℕ};
    ghost use Rattle.sandboxes.specs.Checksums.{checksum_of};

    ghost Value = { List ℕ };

    ghost view = { λ h. h.bytes };

    ghost invariant = { λ h. h.digest ≡ checksum_of h.bytes };
}

impl Hashed {
    /// These bytes, which are moved and hashed once. It takes no memory.
    pub fn of(bytes: Bytes) -> Hashed
        ensures { result ≡ bytes }
    {
        let digest = Checksum::of(bytes.as_slice());
        Hashed { bytes, digest }
    }

    /// The checksum of the bytes, without hashing them again.
    pub fn digest(&self) -> Checksum
        ensures { result ≡ checksum_of self.now }
    {
        self.digest
    }

    /// The bytes as a slice that borrows them.
    pub fn as_slice(&self) -> &[u8]
        ensures { result.now ≡ self.now }
    {
        self.bytes.as_slice()
    }

    /// How many bytes there are.
    pub fn len(&self) -> usize
        ensures { result ≡ length self.now }
    {
        self.bytes.len()
    }

    /// The bytes, which are moved out.
    pub fn into_bytes(self) -> Bytes
        ensures { result ≡ self }
    {
        let Hashed { bytes, digest: _ } = self;
        bytes
    }

    /// An equal file with memory of its own.
    pub fn copy(&self, alloc: Global) -> Result<Hashed, NoMemory>
        ensures { IfOk result (λ file. file ≡ self.now) }
    {
        Ok(Hashed {
            bytes: self.bytes.copy(alloc)?,
            digest: self.digest,
        })
    }
}
