//! Terms of queries: a field and what its value has to be.
use doc_tree::{Bytes, Listed};

/// A term of a query. Fields and values are the bytes that the text means, without its quotes and escapes.
#[derive(Drop)]
pub enum Term {
    /// `*:*`, which every object meets.
    Every,
    /// A field and what its value has to be.
    AtField(Bytes, Wanted),
}

/// What a value has to be.
#[derive(Drop)]
pub enum Wanted {
    /// These bytes: what stood in quotes.
    Equal(Bytes),
    /// What the signs of a word stand for, one after the other.
    Like(Listed<Sign>),
    /// A value between two bounds.
    Between(Range),
}

/// A sign of a word.
#[derive(Clone, Copy, Drop)]
pub enum Sign {
    /// `*`: any characters, also none.
    Any,
    /// `?`: one character.
    One,
    /// A byte that stands for itself.
    Byte(u8),
}

/// A range of values, in the order of their bytes.
#[derive(Drop)]
pub struct Range {
    /// Whether the bounds are in the range: `[A TO B]`, and not `{A TO B}`.
    pub with_ends: bool,
    /// The lower bound, or `None` for `*`.
    pub low: Option<Bytes>,
    /// The upper bound, or `None` for `*`.
    pub high: Option<Bytes>,
}
