//! What a link is, and what its call promises.

ghost use Rattle.std.specs.Prelude.{◌≡◌, ℕ, List};
ghost use Rattle.std.specs.declared.option.Option.{Option};
ghost use Rattle.outside_link.specs.Input.{IsRest};

use outside_core::{Sink, Source};

/// A connection: a source of what the peer sends, and a sink of what is sent to it.
pub trait Link: Source + Sink {
    /// All that the peer sends, from its first byte on, where the link tells it. No call changes it,
    /// and what the link has left is the rest of it.
    ghost input: { Self → Option (List ℕ) };

    /// Ends the connection, both ways. It takes no memory and never fails.
    fn shut(&mut self)
        ensures left { Self.left self.new ≡ Self.left self.old }
        ensures gained { Self.gained self.new ≡ Self.gained self.old }
        ensures input { input self.new ≡ input self.old }
        ensures faults { Self.Sink.faults self.new ≡ Self.Sink.faults self.old };

    /// What is left is the rest of the input.
    ghost rest: { (link : Self) → IsRest (input link) (Self.left link) };

    /// Both ways have one count of faults.
    ghost one_count: { (link : Self) → Self.Source.faults link ≡ Self.Sink.faults link };

    /// Reading leaves what was written.
    ghost reads_gained: { (old new : Self) → Self.Source.aside new ≡ Self.Source.aside old → Self.gained new ≡ Self.gained old };

    /// Reading leaves the input.
    ghost reads_input: { (old new : Self) → Self.Source.aside new ≡ Self.Source.aside old → input new ≡ input old };

    /// Writing leaves what is left to read.
    ghost writes_left: { (old new : Self) → Self.Sink.aside new ≡ Self.Sink.aside old → Self.left new ≡ Self.left old };

    /// Writing leaves the input.
    ghost writes_input: { (old new : Self) → Self.Sink.aside new ≡ Self.Sink.aside old → input new ≡ input old };
}
