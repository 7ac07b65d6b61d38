//! Why a file gives no layers.

ghost use Rattle.std.specs.Prelude.{◌≡◌};
ghost use Rattle.attr_merge.specs.declared.fault.SourcesFault.TheVariants as fault;

use doc_tree::NoMemory as NoMemoryError;
use thiserror::Error;

/// Why the bytes of a file give no layers.
#[derive(Clone, Copy, Debug, PartialEq, Eq, Drop, Error)]
pub enum SourcesFault {
    /// The bytes aren't a list of layers as JSON.
    #[error("not a list of layers")]
    NotSources,
    /// Memory ran out.
    #[error("out of memory")]
    NoMemory,
}

impl From<NoMemoryError> for SourcesFault {
    ghost from_gives = { λ _ e. e ≡ fault.NoMemory };

    fn from(_cause: NoMemoryError) -> SourcesFault {
        SourcesFault::NoMemory
    }
}
