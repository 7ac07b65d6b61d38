//! Bytes that wait to be written to a sink.

ghost use Rattle.std.specs.Prelude.{◌≡◌, ◌≤◌, ◌+◌, ◌++◌, [], IsOk, IfOk, OnOk, OnErr, length};
ghost use Rattle.std.specs.Io.KnownBytes.{append_known};
ghost use Rattle.outside_core.specs.Failed.{HasCause};
ghost use Rattle.outside_core.specs.Sink.{PassesOn, GainsPart};

use crate::{Failed, Sink};
use std::alloc::{AllocError, Global};
use std::marker::Model;

/// Bytes that wait to be written to a sink, so that many small pieces go out in few writes.
///
/// Its memory is taken once, when it is made. It is for one sink, which each call is given: what
/// that sink has gained and then what waits here is all that was written. Contracts see it as the
/// bytes that wait and the most that may wait.
#[derive(Drop)]
pub struct Buffered {
    waiting: Vec<u8>,
    capacity: usize,
}

impl Model for Buffered {
    ghost use Rattle.std.specs.Prelude.{◌≤◌, vec_len, vec_capacity};
    ghost use Rattle.outside_core.specs.Buffered.{WaitingBytes};

    ghost Value = { WaitingBytes };

    ghost view = { λ b. record { waiting = b.waiting.items; capacity = b.capacity } };

    ghost invariant = { λ b. (vec_len b.waiting ≤ b.capacity) × (b.capacity ≤ vec_capacity b.waiting) };
}

impl Buffered {
    /// A buffer in which at most `capacity` bytes wait.
    pub fn take(alloc: Global, capacity: usize) -> Result<Self, AllocError>
        ensures { IfOk result (λ b. b ≡ record { waiting = []; capacity = capacity }) }
    {
        Ok(Buffered {
            waiting: Vec::with_capacity(alloc, capacity)?,
            capacity,
        })
    }

    /// Writes the piece behind what waits: it waits too where there is room, and what waited before
    /// goes to the sink where there isn't. A piece above the capacity goes to the sink at once.
    ///
    /// After [`Failed`] the sink has gained a front of what waited and the piece, and nothing waits.
    pub fn write<S: Sink>(&mut self, sink: &mut S, piece: &[u8]) -> Result<(), Failed>
        ensures ok { OnOk result (PassesOn (S.gained sink.old) (S.gained sink.new) (self.old.waiting ++ piece.now) self.new.waiting) }
        ensures waits { length self.old.waiting + length piece.now ≤ self.old.capacity → IsOk result × (sink.new ≡ sink.old) }
        ensures failed { OnErr result (GainsPart (S.gained sink.old) (S.gained sink.new) (self.old.waiting ++ piece.now)) }
        ensures dropped { OnErr result (self.new.waiting ≡ []) }
        ensures capacity { self.new.capacity ≡ self.old.capacity }
        ensures aside { S.aside sink.new ≡ S.aside sink.old }
        ensures cause { HasCause (S.faults sink.old) (S.faults sink.new) result }
    {
        if piece.len() <= self.capacity - self.waiting.len() {
            self.hold(piece);
            return Ok(());
        }
        self.empty(sink)?;
        if piece.len() > self.capacity {
            return sink.write(piece);
        }
        self.hold(piece);
        Ok(())
    }

    /// Writes all that waits to the sink, in one write; nothing waits afterwards.
    ///
    /// After [`Failed`] the sink has gained a front of what waited.
    pub fn empty<S: Sink>(&mut self, sink: &mut S) -> Result<(), Failed>
        ensures ok { OnOk result (S.gained sink.new ≡ append_known (S.gained sink.old) self.old.waiting) }
        ensures failed { OnErr result (GainsPart (S.gained sink.old) (S.gained sink.new) self.old.waiting) }
        ensures emptied { self.new ≡ record self.old { waiting = [] } }
        ensures aside { S.aside sink.new ≡ S.aside sink.old }
        ensures cause { HasCause (S.faults sink.old) (S.faults sink.new) result }
    {
        if self.waiting.is_empty() {
            return Ok(());
        }
        let written = sink.write(&self.waiting);
        self.waiting.clear();
        written
    }

    // Lets the piece wait, which has room.
    fn hold(&mut self, piece: &[u8])
        requires { length self.old.waiting + length piece.now ≤ self.old.capacity }
        ensures { self.new ≡ record self.old { waiting = self.old.waiting ++ piece.now } }
    {
        let _ = self.waiting.extend_from_slice(piece);
    }
}
