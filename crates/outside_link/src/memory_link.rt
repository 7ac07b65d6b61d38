//! The link in memory.

ghost use Rattle.std.specs.Prelude.{◌≡◌, ◌+◌, ◌<◌, ◌≤◌, ◌++◌, [], Some, IfOk, OnOk, OnErr, is_err, min, length, take, drop};
ghost use Rattle.std.specs.Io.{ReadsAtMost};
ghost use Rattle.outside_core.specs.Failed.{HasCause};
ghost use Rattle.outside_core.specs.Failures.{planned, is_due, after_call};
ghost use Rattle.outside_core.specs.MemorySink.{after_write, refuses_write};
ghost use Rattle.outside_core.specs.Sink.{GainsPart};
ghost use Rattle.outside_link.specs.MemoryLink.{left_of, kept_by_reads, kept_by_writes};

use crate::Link;
use outside_core::{Failed, Failures, Sink, Source};
use std::alloc::{AllocError, Global};
use std::marker::Model;

/// A link in memory: bytes that the peer sends, and room for those that are written to it. Some of
/// its calls fail: reads and writes are counted together.
///
/// A planned failure moves nothing. A write beyond the room appends what fits, and fails. Contracts
/// see it as all that the peer sends, how many bytes of it were read, the most bytes that a read
/// gives, and what was written with its room and its failures.
#[derive(Drop)]
pub struct MemLink {
    input: Vec<u8>,
    at: usize,
    piece: usize,
    gained: Vec<u8>,
    room: usize,
    failures: Failures,
}

impl Model for MemLink {
    ghost use Rattle.std.specs.Prelude.{◌≤◌, ◌<◌, vec_len, vec_capacity};
    ghost use Rattle.outside_link.specs.MemoryLink.{LinkedBytes};

    ghost Value = { LinkedBytes };

    ghost view = { λ l. record { input = l.input.items; taken = l.at; piece = l.piece; sent = record { gained = l.gained.items; room = l.room; failures = l.failures } } };

    ghost invariant = { λ l. (l.at ≤ vec_len l.input) × (0 < l.piece) × (vec_len l.gained ≤ l.room) × (l.room ≤ vec_capacity l.gained) };
}

impl MemLink {
    /// A link of which nothing was read, and to which nothing was written. It gives at most `piece`
    /// bytes in a read, and fails at the calls with these numbers; the first call is number 1. All
    /// the memory for the room is taken here.
    pub fn new(
        alloc: Global,
        input: Vec<u8>,
        piece: usize,
        failing: Vec<u64>,
        room: usize,
    ) -> Result<Self, AllocError>
        requires { 0 < piece }
        ensures { IfOk result (λ l. l ≡ record { input = input.items; taken = 0; piece = piece; sent = record { gained = []; room = room; failures = planned failing.items } }) }
    {
        match Vec::with_capacity(alloc, room) {
            Ok(gained) => Ok(MemLink {
                input,
                at: 0,
                piece,
                gained,
                room,
                failures: Failures::planned(failing),
            }),
            Err(error) => Err(error),
        }
    }

    /// The bytes that were written.
    pub fn written(&self) -> &[u8]
        ensures { result.now ≡ self.now.sent.gained }
    {
        &self.gained
    }

    // Moves the front of what is left into `into`, as much as a read gives.
    fn take_front(&mut self, into: &mut [u8]) -> usize
        ensures count { result ≡ min (min (length (left_of self.old)) (length into.old)) self.old.piece }
        ensures piece { 0 < self.old.piece }
        ensures bytes { into.new ≡ take result (left_of self.old) ++ drop result into.old }
        ensures rest { self.new ≡ record self.old { taken = self.old.taken + result } }
    {
        let left = &self.input[self.at..];
        let count = left.len().min(into.len()).min(self.piece);
        into[..count].copy_from_slice(&left[..count]);
        self.at += count;
        count
    }

    // Appends what has room.
    fn gain(&mut self, piece: &[u8])
        requires { length self.old.sent.gained + length piece.now ≤ self.old.sent.room }
        ensures { self.new ≡ record self.old { sent = record self.old.sent { gained = self.old.sent.gained ++ piece.now } } }
    {
        let _ = self.gained.extend_from_slice(piece);
    }
}

impl Source for MemLink {
    ghost left = { λ l. Some (left_of l) };

    ghost faults = { λ l. l.sent.failures.faults };

    ghost aside = { λ l. Some (kept_by_reads l) };

    /// Fails at the planned calls alone.
    fn read(&mut self, into: &mut [u8]) -> Result<usize, Failed>
        ensures bound { ReadsAtMost result into.new }
        ensures bytes { IfOk result (λ n. left_of self.old ≡ take n into.new ++ left_of self.new) }
        ensures end { IfOk result (λ n. n ≡ 0 → 0 < length into.old → left_of self.new ≡ []) }
        ensures failed { OnErr result (left_of self.new ≡ left_of self.old) }
        ensures gained { self.new.sent.gained ≡ self.old.sent.gained }
        ensures input { self.new.input ≡ self.old.input }
        ensures cause { HasCause self.old.sent.failures.faults self.new.sent.failures.faults result }
        ensures planned { is_err result ≡ is_due self.old.sent.failures }
        ensures counted { self.new.sent ≡ record self.old.sent { failures = after_call self.old.sent.failures } }
    {
        self.failures.call()?;
        Ok(self.take_front(into))
    }
}

impl Sink for MemLink {
    ghost gained = { λ l. Some l.sent.gained };

    ghost faults = { λ l. l.sent.failures.faults };

    ghost aside = { λ l. Some (kept_by_writes l) };

    fn write(&mut self, piece: &[u8]) -> Result<(), Failed>
        ensures ok { OnOk result (self.new.sent.gained ≡ self.old.sent.gained ++ piece.now) }
        ensures failed { OnErr result (GainsPart (Some self.old.sent.gained) (Some self.new.sent.gained) piece.now) }
        ensures cause { HasCause self.old.sent.failures.faults self.new.sent.failures.faults result }
        ensures refused { is_err result ≡ refuses_write self.old.sent piece.now }
        ensures kept { self.new ≡ record self.old { sent = after_write self.old.sent piece.now } }
    {
        self.failures.call()?;
        let free = self.room - self.gained.len();
        if piece.len() > free {
            self.failures.fault();
            self.gain(&piece[..free]);
            return Err(Failed);
        }
        self.gain(piece);
        Ok(())
    }
}

impl Link for MemLink {
    ghost use Rattle.std.specs.Prelude.{refl};
    ghost use Rattle.outside_link.specs.MemoryLaws.{gained_kept, input_kept, left_kept, input_unwritten, left_is_rest};

    ghost input = { λ l. Some l.input };

    fn shut(&mut self) {}

    ghost rest = { left_is_rest };

    ghost one_count = { λ link. refl };

    ghost reads_gained = { gained_kept };

    ghost reads_input = { input_kept };

    ghost writes_left = { left_kept };

    ghost writes_input = { input_unwritten };
}
