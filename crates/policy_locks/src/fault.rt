//! Why a body gives no lock, or no source of one.
ghost use Rattle.std.specs.Prelude.{◌≡◌, ◌⊎◌, ok_or};
ghost use Rattle.policy_locks.specs.Outcomes.{Gives};
ghost use Rattle.policy_locks.specs.declared.fault.LockFault.TheVariants as fault;

use doc_tree::{NoMemory as NoMemoryError, Text};
use std::alloc::Global;
use thiserror::Error;

/// Why a body gives no lock, or no source of one.
#[derive(Debug, Drop, Error)]
pub enum LockFault {
    /// The name of the first field that hasn't its form.
    #[error("bad field {0}")]
    BadField(Text),
    /// Memory ran out.
    #[error("out of memory")]
    NoMemory,
}

impl From<NoMemoryError> for LockFault {
    ghost from_gives = { λ _ e. e ≡ fault.NoMemory };

    fn from(_cause: NoMemoryError) -> LockFault {
        LockFault::NoMemory
    }
}

/// The fault of the field of this name.
pub(crate) fn bad_field(alloc: Global, key: &str) -> LockFault
    ensures { (result ≡ fault.NoMemory) ⊎ (result ≡ fault.BadField key.now) }
{
    match Text::from_str(alloc, key) {
        Ok(key) => LockFault::BadField(key),
        Err(_) => LockFault::NoMemory,
    }
}

/// What was read of a field, or the fault of the field where it hasn't its form.
pub(crate) fn in_field<T>(alloc: Global, key: &str, found: Option<T>) -> Result<T, LockFault>
    ensures { Gives result (ok_or found key.now) }
{
    match found {
        Some(read) => Ok(read),
        None => Err(bad_field(alloc, key)),
    }
}
