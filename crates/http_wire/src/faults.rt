//! Why no message was read.
use outside_core::Failed;

/// Why no message was read.
#[derive(Clone, Copy, Debug, PartialEq, Eq)]
pub enum WireFault {
    /// The source failed. It counted the fault.
    ReadFault,
    /// The bytes that are left of the stream begin no whole message, and there are some. The place
    /// of the first of them is counted from the stream's first byte.
    NotAMessage { place: u64 },
}

impl From<Failed> for WireFault {
    ghost use Rattle.std.specs.Prelude.{◌≡◌};
    ghost use Rattle.http_wire.specs.declared.faults.WireFault.TheVariants.{ReadFault};

    ghost from_gives = { λ _ fault. fault ≡ ReadFault };

    fn from(_: Failed) -> Self {
        WireFault::ReadFault
    }
}
