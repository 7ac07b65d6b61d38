//! Why a row is bad.

/// Why a row is none of an organisation's rows: the first of these that holds, in this order.
#[derive(Clone, Copy, Debug, PartialEq, Eq, Drop)]
pub enum Reason {
    /// The kind is no word of one.
    Kind,
    /// The organisation or the name hasn't the form that the kind asks for.
    Name,
    /// The body isn't one of its kind, or not written as it is stored.
    Body,
    /// The organisation lies in another shard.
    Shard,
    /// What the row asks for isn't there.
    Reference,
    /// The file's digest isn't its name.
    Digest,
}
