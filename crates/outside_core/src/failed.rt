//! What a call answers that the outside refused.

/// The outside refused a call: a read or a write that the system, a device or a peer didn't do.
///
/// Whoever answers it counts it, so a caller can tell that the fault lies outside.
#[derive(Clone, Copy, Debug, PartialEq, Eq)]
pub struct Failed;
