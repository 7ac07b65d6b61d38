ghost use Rattle.std.specs.Prelude.{◌≡◌};
ghost use Rattle.query_text.specs.declared.fault.QueryFault.TheVariants as fault;

use doc_tree::NoMemory as NoMemoryError;
use thiserror::Error;

/// Why a text gives no query.
#[derive(Clone, Copy, Debug, PartialEq, Eq, Drop, Error)]
pub enum QueryFault {
    /// The text spells no query.
    #[error("bad query at {place}")]
    NotAQuery {
        /// How many bytes the longest front of the text has with which some query begins.
        place: usize,
    },
    /// Memory ran out.
    #[error("out of memory")]
    NoMemory,
}

impl From<NoMemoryError> for QueryFault {
    ghost from_gives = { λ _ e. e ≡ fault.NoMemory };

    fn from(_cause: NoMemoryError) -> QueryFault {
        QueryFault::NoMemory
    }
}
