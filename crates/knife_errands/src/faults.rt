//! Why words, bodies and files give nothing.

ghost use Rattle.std.specs.Prelude.{◌≡◌};
ghost use Rattle.knife_errands.specs.declared.faults.KnifeFault.TheVariants as words;
ghost use Rattle.knife_errands.specs.declared.faults.BodyFault.TheVariants as body;
ghost use Rattle.knife_errands.specs.declared.faults.FileFault.TheVariants as file;

use doc_tree::NoMemory as NoMemoryError;
use thiserror::Error;

/// Why words give no errand.
#[derive(Clone, Copy, Debug, PartialEq, Eq, Drop, Error)]
pub enum KnifeFault {
    /// The words spell no errand.
    #[error("not a command")]
    NotACommand,
    /// Memory ran out.
    #[error("out of memory")]
    NoMemory,
}

impl From<NoMemoryError> for KnifeFault {
    ghost from_gives = { λ _ e. e ≡ words.NoMemory };

    fn from(_cause: NoMemoryError) -> KnifeFault {
        KnifeFault::NoMemory
    }
}

/// Why the body of a reply gives nothing.
#[derive(Clone, Copy, Debug, PartialEq, Eq, Drop, Error)]
pub enum BodyFault {
    /// The body hasn't the form of such a reply.
    #[error("malformed body")]
    Malformed,
    /// Memory ran out.
    #[error("out of memory")]
    NoMemory,
}

impl From<NoMemoryError> for BodyFault {
    ghost from_gives = { λ _ e. e ≡ body.NoMemory };

    fn from(_cause: NoMemoryError) -> BodyFault {
        BodyFault::NoMemory
    }
}

/// Why a file gives nothing to send.
#[derive(Clone, Copy, Debug, PartialEq, Eq, Drop, Error)]
pub enum FileFault {
    /// The file isn't JSON, or has no name in it.
    #[error("bad file")]
    BadFile,
    /// Memory ran out.
    #[error("out of memory")]
    NoMemory,
}

impl From<NoMemoryError> for FileFault {
    ghost from_gives = { λ _ e. e ≡ file.NoMemory };

    fn from(_cause: NoMemoryError) -> FileFault {
        FileFault::NoMemory
    }
}
