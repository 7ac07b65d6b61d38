//! Why an image is no host.
ghost use Rattle.std.specs.Prelude.{◌≡◌};
ghost use Rattle.host_tree.specs.declared.image_fault.ImageFault.TheVariants as fault;

use doc_tree::{NoMemory as NoMemoryError, Text};
use thiserror::Error;

/// Why a tree is no image of a host.
#[derive(Debug, Drop, Error)]
pub enum ImageFault {
    /// The path of the first entry, in the order of bytes, that hasn't its form; empty where the tree is no dict.
    #[error("bad image at {0}")]
    BadImage(Text),
    /// Memory ran out.
    #[error("out of memory")]
    NoMemory,
}

impl From<NoMemoryError> for ImageFault {
    ghost from_gives = { λ _ e. e ≡ fault.NoMemory };

    fn from(_cause: NoMemoryError) -> ImageFault {
        ImageFault::NoMemory
    }
}
