//! What one seat of a book knows. No value of these types is made.

use std::collections::LinkedList;

/// Where a seat is with the value.
pub enum Stage {
    /// The book has no value yet.
    Empty,
    /// The first value is about to be put in.
    Filling,
    /// The seat doesn't have the value.
    Idle,
    /// The value is out with this seat.
    Out,
}

/// What one seat knows of its book, and what it has done with it.
pub struct View<E, O> {
    /// What the book was opened with. A seat that was spent doesn't know it.
    pub opened: Option<O>,
    /// Its parts of the right to close the book.
    pub parts: u64,
    /// The beginning of the history that it has seen.
    pub seen: LinkedList<E>,
    /// What a seat that was joined to it had seen, until the longer of both is kept.
    pub told: LinkedList<E>,
    /// The places of its own calls in the history.
    pub mine: LinkedList<u64>,
    /// The place of the call that it has begun.
    pub ticket: Option<u64>,
    /// Where it is with the value.
    pub stage: Stage,
    /// Whether the tickets were at their end when it last read them.
    pub at_end: bool,
}
