//! Sources over bytes in memory.

ghost use Rattle.std.specs.Prelude.{◌≡◌, ◌<◌, ◌≤◌, ◌++◌, [], Some, IfOk, OnErr, is_err, min, length, take, drop};
ghost use Rattle.std.specs.Io.{ReadsAtMost};
ghost use Rattle.outside_core.specs.Failed.{HasCause};
ghost use Rattle.outside_core.specs.Failures.{planned, is_due, after_call};

use crate::failures::Failures;
use crate::{Failed, Source};
use std::marker::Model;

/// A source over bytes in memory that never fails.
///
/// Contracts see it as the bytes that are left and the most bytes that a read gives.
#[derive(Drop)]
pub struct NeverFailingSource {
    bytes: Vec<u8>,
    at: usize,
    piece: usize,
}

impl Model for NeverFailingSource {
    ghost use Rattle.std.specs.Prelude.{◌≤◌, ◌<◌, drop, vec_len};
    ghost use Rattle.outside_core.specs.MemorySource.{BytesInPieces};

    ghost Value = { BytesInPieces };

    ghost view = { λ s. record { left = drop s.at s.bytes.items; piece = s.piece } };

    ghost invariant = { λ s. (s.at ≤ vec_len s.bytes) × (0 < s.piece) };
}

impl NeverFailingSource {
    /// A source that gives these bytes, at most `piece` of them in a read.
    pub fn new(bytes: Vec<u8>, piece: usize) -> Self
        requires { 0 < piece }
        ensures { result ≡ record { left = bytes.items; piece = piece } }
    {
        NeverFailingSource {
            bytes,
            at: 0,
            piece,
        }
    }

    // Moves the front of what is left into `into`, as much as a read gives.
    fn take_front(&mut self, into: &mut [u8]) -> usize
        ensures count { result ≡ min (min (length self.old.left) (length into.old)) self.old.piece }
        ensures piece { 0 < self.old.piece }
        ensures bytes { into.new ≡ take result self.old.left ++ drop result into.old }
        ensures rest { self.new ≡ record self.old { left = drop result self.old.left } }
    {
        let left = &self.bytes[self.at..];
        let count = left.len().min(into.len()).min(self.piece);
        into[..count].copy_from_slice(&left[..count]);
        self.at += count;
        count
    }
}

impl Source for NeverFailingSource {
    ghost left = { λ s. Some s.left };

    ghost faults = { λ _. 0 };

    fn read(&mut self, into: &mut [u8]) -> Result<usize, Failed> {
        Ok(self.take_front(into))
    }
}

/// A source over bytes in memory, of which some reads fail, for trying what comes after a fault.
///
/// Contracts see it as the bytes that are left, the most bytes that a read gives, and its failures.
#[derive(Drop)]
pub struct MemSource {
    source: NeverFailingSource,
    failures: Failures,
}

impl Model for MemSource {
    ghost use Rattle.outside_core.specs.MemorySource.{FailingBytes};

    ghost Value = { FailingBytes };

    ghost view = { λ s. record { left = s.source.left; piece = s.source.piece; failures = s.failures } };
}

impl MemSource {
    /// A source that gives these bytes, at most `piece` of them in a read, and fails at the reads
    /// with these numbers. The first read is number 1.
    pub fn new(bytes: Vec<u8>, piece: usize, failing: Vec<u64>) -> Self
        requires { 0 < piece }
        ensures { result ≡ record { left = bytes.items; piece = piece; failures = planned failing.items } }
    {
        MemSource {
            source: NeverFailingSource::new(bytes, piece),
            failures: Failures::planned(failing),
        }
    }
}

impl Source for MemSource {
    ghost left = { λ s. Some s.left };

    ghost faults = { λ s. s.failures.faults };

    /// Fails at the planned reads alone.
    fn read(&mut self, into: &mut [u8]) -> Result<usize, Failed>
        ensures bound { ReadsAtMost result into.new }
        ensures bytes { IfOk result (λ n. self.old.left ≡ take n into.new ++ self.new.left) }
        ensures end { IfOk result (λ n. n ≡ 0 → 0 < length into.old → self.new.left ≡ []) }
        ensures failed { OnErr result (self.new.left ≡ self.old.left) }
        ensures cause { HasCause self.old.failures.faults self.new.failures.faults result }
        ensures planned { is_err result ≡ is_due self.old.failures }
        ensures counted { self.new.failures ≡ after_call self.old.failures }
    {
        self.failures.call()?;
        self.source.read(into)
    }
}
