//! Why no lock was made.
ghost use Rattle.std.specs.Prelude.{◌≡◌};

use doc_tree::{Name, Names, NoMemory as NoMemoryError};
use std::fmt;
use thiserror::Error;

/// Why no lock was made.
#[derive(Drop, Error)]
pub enum MakeFault {
    /// No choice of versions is a solution. Both lists are of roots, in byte order and without repeats.
    #[error("no solution")]
    Unsolvable {
        /// The roots that the universe lacks.
        no_cookbook: Names,
        /// The roots that the universe has, and of which no version meets the pins and the rules.
        no_version: Names,
    },
    /// The first chosen cookbook, in byte order, for whose version no identifier was handed in.
    #[error("no identifier of {0}")]
    NoIdentifier(Name),
    /// Memory ran out.
    #[error("out of memory")]
    NoMemory,
}

impl fmt::Debug for MakeFault {
    fn fmt<W: fmt::Write>(&self, f: &mut fmt::Formatter<W>) -> fmt::Result {
        match self {
            MakeFault::Unsolvable { .. } => f.write_str("Unsolvable"),
            MakeFault::NoIdentifier(name) => write!(f, "NoIdentifier({name})"),
            MakeFault::NoMemory => f.write_str("NoMemory"),
        }
    }
}

impl From<NoMemoryError> for MakeFault {
    ghost use Rattle.policy_locks.specs.declared.make_fault.MakeFault.TheVariants.{NoMemory};

    ghost from_gives = { λ _ e. e ≡ NoMemory };

    fn from(_cause: NoMemoryError) -> MakeFault {
        MakeFault::NoMemory
    }
}
