//! Why a keeper gives no answer.

ghost use Rattle.std.specs.Prelude.{◌≡◌};
ghost use Rattle.outside_keeper.specs.declared.keep_fault.KeepFault.TheVariants as fault;

use doc_tree::NoMemory as NoMemoryError;
use outside_core::Failed as Refused;
use thiserror::Error;

/// Why a keeper gives no answer.
#[derive(Clone, Copy, Debug, PartialEq, Eq, Drop, Error)]
pub enum KeepFault {
    /// The keeper refused the call, and counted it.
    #[error("keeper fault")]
    Failed,
    /// Memory ran out.
    #[error("out of memory")]
    NoMemory,
}

impl From<NoMemoryError> for KeepFault {
    ghost from_gives = { λ _ e. e ≡ fault.NoMemory };

    fn from(_cause: NoMemoryError) -> KeepFault {
        KeepFault::NoMemory
    }
}

impl From<Refused> for KeepFault {
    ghost from_gives = { λ _ e. e ≡ fault.Failed };

    fn from(_cause: Refused) -> KeepFault {
        KeepFault::Failed
    }
}
