//! What a value stands for, and the entry that a call adds.
ghost use Rattle.std.specs.Prelude.{List, Option};

/// A value that stands for a list of entries, from what it was opened with: each entry is a call, and the value is what
/// these calls leave.
pub trait Stands {
    /// One call, as the history has it.
    type Entry;
    /// What a value is when its book is made, as far as the history rests on it.
    type Opened;

    ghost opened: { Self → Self.Opened };

    ghost stands: { Self.Opened → List Self.Entry → Self → Type 0 };
}

/// The entry that a call adds to the history. It is there for the contracts alone: whoever gives a value back picks it, and
/// has to pick one.
pub trait Picks<E> {
    ghost entry: { Option E };
}
