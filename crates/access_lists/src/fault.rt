//! Why a document gives no access list.
ghost use Rattle.std.specs.Prelude.{◌≡◌};
ghost use Rattle.access_lists.specs.declared.fault.AclFault.TheVariants as fault;

use doc_tree::NoMemory as NoMemoryError;
use thiserror::Error;

/// Why a document gives no access list, or no entry of one.
#[derive(Clone, Copy, Debug, PartialEq, Eq, Drop, Error)]
pub enum AclFault {
    /// The document hasn't the form: a key is missing or is one too many, or what should be a list of
    /// texts is none.
    #[error("not an access list")]
    NotAnAcl,
    /// Memory ran out.
    #[error("out of memory")]
    NoMemory,
}

impl From<NoMemoryError> for AclFault {
    ghost from_gives = { λ _ e. e ≡ fault.NoMemory };

    fn from(_cause: NoMemoryError) -> AclFault {
        AclFault::NoMemory
    }
}
