//! The sink in memory.

ghost use Rattle.std.specs.Prelude.{◌≡◌, ◌+◌, ◌≤◌, ◌++◌, [], Some, IfOk, OnOk, OnErr, is_err, length};
ghost use Rattle.outside_core.specs.Failed.{HasCause};
ghost use Rattle.outside_core.specs.Failures.{planned};
ghost use Rattle.outside_core.specs.MemorySink.{after_write, refuses_write};
ghost use Rattle.outside_core.specs.Sink.{GainsPart};

use crate::failures::Failures;
use crate::{Failed, Sink};
use std::alloc::{AllocError, Global};
use std::marker::Model;

/// A sink in memory with room for a number of bytes, of which some writes fail.
///
/// A planned failure gains nothing. A write beyond the room gains what fits, and fails. Contracts
/// see it as the bytes gained, the room, and its failures.
#[derive(Drop)]
pub struct MemSink {
    gained: Vec<u8>,
    room: usize,
    failures: Failures,
}

impl Model for MemSink {
    ghost use Rattle.std.specs.Prelude.{◌≤◌, vec_len, vec_capacity};
    ghost use Rattle.outside_core.specs.MemorySink.{RoomyBytes};

    ghost Value = { RoomyBytes };

    ghost view = { λ s. record { gained = s.gained.items; room = s.room; failures = s.failures } };

    ghost invariant = { λ s. (vec_len s.gained ≤ s.room) × (s.room ≤ vec_capacity s.gained) };
}

impl MemSink {
    /// An empty sink with this room, all of whose memory is taken here. It fails at the writes with
    /// these numbers; the first write is number 1.
    pub fn new(alloc: Global, failing: Vec<u64>, room: usize) -> Result<Self, AllocError>
        ensures { IfOk result (λ s. s ≡ record { gained = []; room = room; failures = planned failing.items }) }
    {
        Ok(MemSink {
            gained: Vec::with_capacity(alloc, room)?,
            room,
            failures: Failures::planned(failing),
        })
    }

    /// The bytes that it has gained.
    pub fn bytes(&self) -> &[u8]
        ensures { result.now ≡ self.now.gained }
    {
        &self.gained
    }

    // Gains what has room.
    fn gain(&mut self, piece: &[u8])
        requires { length self.old.gained + length piece.now ≤ self.old.room }
        ensures { self.new ≡ record self.old { gained = self.old.gained ++ piece.now } }
    {
        let _ = self.gained.extend_from_slice(piece);
    }
}

impl Sink for MemSink {
    ghost gained = { λ s. Some s.gained };

    ghost faults = { λ s. s.failures.faults };

    fn write(&mut self, piece: &[u8]) -> Result<(), Failed>
        ensures ok { OnOk result (self.new.gained ≡ self.old.gained ++ piece.now) }
        ensures failed { OnErr result (GainsPart (Some self.old.gained) (Some self.new.gained) piece.now) }
        ensures cause { HasCause self.old.failures.faults self.new.failures.faults result }
        ensures refused { is_err result ≡ refuses_write self.old piece.now }
        ensures kept { self.new ≡ after_write self.old piece.now }
    {
        self.failures.call()?;
        let free = self.room - self.gained.len();
        if piece.len() > free {
            self.failures.fault();
            self.gain(&piece[..free]);
            return Err(Failed);
        }
        self.gain(piece);
        Ok(())
    }
}
