//! Why a disk gives no answer.

ghost use Rattle.std.specs.Prelude.{◌≡◌};
ghost use Rattle.outside_core.specs.declared.disk_fault.DiskFault.TheVariants as fault;

use crate::Failed as Refused;
use doc_tree::NoMemory as NoMemoryError;
use thiserror::Error;

/// Why a disk gives no answer.
#[derive(Clone, Copy, Debug, PartialEq, Eq, Drop, Error)]
pub enum DiskFault {
    /// The disk refused the call, and counted it.
    #[error("disk fault")]
    Failed,
    /// Memory ran out.
    #[error("out of memory")]
    NoMemory,
}

impl From<NoMemoryError> for DiskFault {
    ghost from_gives = { λ _ e. e ≡ fault.NoMemory };

    fn from(_cause: NoMemoryError) -> DiskFault {
        DiskFault::NoMemory
    }
}

impl From<Refused> for DiskFault {
    ghost from_gives = { λ _ e. e ≡ fault.Failed };

    fn from(_cause: Refused) -> DiskFault {
        DiskFault::Failed
    }
}
