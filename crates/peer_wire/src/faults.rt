//! Why a request wasn't written, and why no reply was read.

use outside_core::Failed;

/// Why a request wasn't written.
#[derive(Clone, Copy, Debug, PartialEq, Eq)]
pub enum WriteFault {
    /// The sink failed. It counted the fault, and has gained a front of the request's text.
    Failed,
    /// There was no memory for the text, and nothing was written.
    NoMemory,
}

/// Why no reply was read.
#[derive(Clone, Copy, Debug, PartialEq, Eq)]
pub enum ReplyFault {
    /// The source failed. It counted the fault.
    ReadFault,
    /// The bytes that are left begin no whole reply, or none is left.
    NotAReply,
    /// There was no memory for the body.
    NoMemory,
}

impl From<Failed> for ReplyFault {
    ghost use Rattle.std.specs.Prelude.{◌≡◌};
    ghost use Rattle.peer_wire.specs.declared.faults.ReplyFault.TheVariants.{ReadFault};

    ghost from_gives = { λ _ fault. fault ≡ ReadFault };

    fn from(_: Failed) -> Self {
        ReplyFault::ReadFault
    }
}
