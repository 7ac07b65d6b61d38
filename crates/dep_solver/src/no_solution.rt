//! Why no versions were chosen.
ghost use Rattle.std.specs.Prelude.{◌≡◌};

use doc_tree::{Names, NoMemory as NoMemoryError};
use std::fmt;
use thiserror::Error;

/// Why no versions were chosen.
#[derive(Drop, Error)]
pub enum NoSolution {
    /// No choice of versions is a solution. Both lists are of roots, in byte order and without repeats.
    #[error("no solution")]
    Unsolvable {
        /// The roots that the universe lacks.
        no_cookbook: Names,
        /// The roots that the universe has, and of which no version meets the pins and the rules.
        no_version: Names,
    },
    /// Memory ran out.
    #[error("out of memory")]
    NoMemory,
}

impl fmt::Debug for NoSolution {
    fn fmt<W: fmt::Write>(&self, f: &mut fmt::Formatter<W>) -> fmt::Result {
        match self {
            NoSolution::Unsolvable { .. } => f.write_str("Unsolvable"),
            NoSolution::NoMemory => f.write_str("NoMemory"),
        }
    }
}

impl From<NoMemoryError> for NoSolution {
    ghost use Rattle.dep_solver.specs.declared.no_solution.NoSolution.TheVariants.{NoMemory};

    ghost from_gives = { λ _ e. e ≡ NoMemory };

    fn from(_cause: NoMemoryError) -> NoSolution {
        NoSolution::NoMemory
    }
}
