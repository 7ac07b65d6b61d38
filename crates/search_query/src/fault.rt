//! Why a body gives no partial search.
ghost use Rattle.std.specs.Prelude.{◌≡◌};
ghost use Rattle.search_query.specs.Outcomes.{Names};
ghost use Rattle.search_query.specs.declared.fault.PartialFault.TheVariants as fault;

use doc_tree::{NoMemory as NoMemoryError, Text};
use std::alloc::Global;
use thiserror::Error;

/// Why a body gives no partial search.
#[derive(Debug, Drop, Error)]
pub enum PartialFault {
    /// The first key, in byte order, whose value is no list of texts, or `body` where the body is no Dict.
    #[error("bad field {0}")]
    BadField(Text),
    /// Memory ran out.
    #[error("out of memory")]
    NoMemory,
}

impl From<NoMemoryError> for PartialFault {
    ghost from_gives = { λ _ e. e ≡ fault.NoMemory };

    fn from(_cause: NoMemoryError) -> PartialFault {
        PartialFault::NoMemory
    }
}

/// The fault of the field of this name.
pub(crate) fn bad_field(alloc: Global, field: &str) -> PartialFault
    ensures { Names result field.now }
{
    match Text::from_str(alloc, field) {
        Ok(field) => PartialFault::BadField(field),
        Err(_) => PartialFault::NoMemory,
    }
}
