//! Why a call on sandboxes does nothing.
ghost use Rattle.std.specs.Prelude.{◌≡◌};
ghost use Rattle.sandboxes.specs.declared.fault.SandFault.TheVariants as fault;

use crate::checksum::Checksum;
use crate::hashed::Hashed;
use doc_tree::NoMemory as NoMemoryError;
use std::alloc::AllocError;
use thiserror::Error;

/// Why a call on sandboxes does nothing.
#[derive(Clone, Copy, Debug, PartialEq, Eq, Drop, Error)]
pub enum SandFault {
    /// No uncommitted sandbox of the organisation has this id, or lists this checksum.
    #[error("no such sandbox")]
    NoSandbox,
    /// The checksum of the file isn't the one that was asked for.
    #[error("digest is {found}, not {asked}")]
    DigestDiffers { asked: Checksum, found: Checksum },
    /// The organisation has made 2^64-1 sandboxes.
    #[error("sandbox count is at its end")]
    CountAtEnd,
    /// Memory ran out.
    #[error("out of memory")]
    NoMemory,
}

/// A file that wasn't taken, handed back, and why.
#[derive(Drop)]
pub struct Refused {
    pub file: Hashed,
    pub fault: SandFault,
}

impl From<NoMemoryError> for SandFault {
    ghost from_gives = { λ _ e. e ≡ fault.NoMemory };

    fn from(_cause: NoMemoryError) -> SandFault {
        SandFault::NoMemory
    }
}

impl From<AllocError> for SandFault {
    ghost from_gives = { λ _ e. e ≡ fault.NoMemory };

    fn from(_cause: AllocError) -> SandFault {
        SandFault::NoMemory
    }
}
