ghost use Rattle.std.specs.Prelude.{◌≡◌};
ghost use Rattle.run_lists.specs.declared.expand_fault.ExpandFault.TheVariants as fault;

use doc_tree::{Names, NoMemory as NoMemoryError};
use std::fmt;
use thiserror::Error;

/// Why a run list has no expansion.
#[derive(Drop, Error)]
pub enum ExpandFault {
    /// These roles were met and aren't there, in the order in which they were met first.
    #[error("missing roles")]
    MissingRoles(Names),
    /// Memory ran out.
    #[error("out of memory")]
    NoMemory,
}

impl fmt::Debug for ExpandFault {
    fn fmt<W: fmt::Write>(&self, f: &mut fmt::Formatter<W>) -> fmt::Result {
        match self {
            ExpandFault::MissingRoles(_) => f.write_str("MissingRoles"),
            ExpandFault::NoMemory => f.write_str("NoMemory"),
        }
    }
}

impl From<NoMemoryError> for ExpandFault {
    ghost from_gives = { λ _ e. e ≡ fault.NoMemory };

    fn from(_cause: NoMemoryError) -> ExpandFault {
        ExpandFault::NoMemory
    }
}
