//! What a sink is, and what its call promises.

ghost use Rattle.std.specs.Prelude.{◌≡◌, ℕ, List, None, OnOk, OnErr};
ghost use Rattle.std.specs.declared.option.Option.{Option};
ghost use Rattle.std.specs.Io.KnownBytes.{append_known};
ghost use Rattle.outside_core.specs.Failed.{HasCause};
ghost use Rattle.outside_core.specs.Sink.{GainsPart};

use crate::Failed;

/// Something that bytes are written to, as a standard output, a connection or a list in memory.
pub trait Sink {
    /// The bytes that it has gained since it was made, where it tells them.
    ghost gained: { Self → Option (List ℕ) };

    /// How often it has failed.
    ghost faults: { Self → ℕ };

    /// What a write leaves as it was. A sink that is also a source tells here what it has left.
    ghost aside: { Self → Option (List ℕ) } = { λ _. None };

    /// Appends the whole piece.
    ///
    /// [`Failed`] has appended a front of it, which may be nothing or all, and comes only where the
    /// count of faults rose.
    fn write(&mut self, piece: &[u8]) -> Result<(), Failed>
        ensures ok { OnOk result (gained self.new ≡ append_known (gained self.old) piece.now) }
        ensures failed { OnErr result (GainsPart (gained self.old) (gained self.new) piece.now) }
        ensures aside { aside self.new ≡ aside self.old }
        ensures cause { HasCause (faults self.old) (faults self.new) result };
}
