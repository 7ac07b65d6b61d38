//! What a source is, and what its call promises.

ghost use Rattle.std.specs.Prelude.{◌≡◌, ℕ, ◌<◌, List, length, take, None, IfOk, OnErr};
ghost use Rattle.std.specs.declared.option.Option.{Option};
ghost use Rattle.std.specs.Io.{ReadsAtMost};
ghost use Rattle.std.specs.Io.KnownBytes.{IsAtEnd, prepend_known};
ghost use Rattle.outside_core.specs.Failed.{HasCause};

use crate::Failed;

/// Something that bytes are read from, as a standard input, a connection or a list in memory.
pub trait Source {
    /// The bytes that it has left to give, where it tells them.
    ghost left: { Self → Option (List ℕ) };

    /// How often it has failed.
    ghost faults: { Self → ℕ };

    /// What a read leaves as it was. A source that is also a sink tells here what it has gained.
    ghost aside: { Self → Option (List ℕ) } = { λ _. None };

    /// Moves the next bytes that are left into the front of `into`, and says how many these are.
    ///
    /// Zero for a piece that isn't empty is the end: nothing is left. [`Failed`] moves nothing, and
    /// comes only where the count of faults rose.
    fn read(&mut self, into: &mut [u8]) -> Result<usize, Failed>
        ensures bound { ReadsAtMost result into.new }
        ensures bytes { IfOk result (λ n. left self.old ≡ prepend_known (take n into.new) (left self.new)) }
        ensures end { IfOk result (λ n. n ≡ 0 → 0 < length into.old → IsAtEnd (left self.new)) }
        ensures failed { OnErr result (left self.new ≡ left self.old) }
        ensures aside { aside self.new ≡ aside self.old }
        ensures cause { HasCause (faults self.old) (faults self.new) result };
}
