//! Why a host gives no answer.
ghost use Rattle.std.specs.Prelude.{◌≡◌};
ghost use Rattle.host_tree.specs.declared.fault.HostFault.TheVariants as fault;

use doc_tree::NoMemory as NoMemoryError;
use outside_core::Failed as Refused;
use thiserror::Error;

/// Why a host gives no answer.
#[derive(Clone, Copy, Debug, PartialEq, Eq, Drop, Error)]
pub enum HostFault {
    /// The host refused the call, and counted it.
    #[error("host fault")]
    Failed,
    /// Memory ran out.
    #[error("out of memory")]
    NoMemory,
}

impl From<NoMemoryError> for HostFault {
    ghost from_gives = { λ _ e. e ≡ fault.NoMemory };

    fn from(_cause: NoMemoryError) -> HostFault {
        HostFault::NoMemory
    }
}

impl From<Refused> for HostFault {
    ghost from_gives = { λ _ e. e ≡ fault.Failed };

    fn from(_cause: Refused) -> HostFault {
        HostFault::Failed
    }
}
