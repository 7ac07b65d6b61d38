//! Why a stream is answered no further.

/// Why no further message of a stream is answered.
#[derive(Clone, Copy, Debug, PartialEq, Eq)]
pub enum End {
    /// The input ended between messages.
    Closed,
    /// A read failed.
    ReadFault,
    /// A write failed.
    WriteFault,
    /// What follows is no message. The place of its first byte is counted from the stream's first byte.
    NotAMessage { place: u64 },
}
