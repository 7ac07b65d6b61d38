//! The bytes of a stream that were read and not yet used.
ghost use Rattle.std.specs.Prelude.{◌≡◌, ◌+◌, ◌<◌, ◌≤◌, [], MatchBool, IfOk, OnErr, vec_len, length, take, drop};
ghost use Rattle.std.specs.Io.KnownBytes.{IsAtEnd, prepend_known};
ghost use Rattle.outside_core.specs.Failed.{HasCause};

use doc_tree::NoMemory;
use outside_core::{Failed, Source};
use std::alloc::Global;
use std::marker::Model;

/// How many bytes a window holds: as many as a message's head may have.
const CAPACITY: usize = 16_384;

/// The bytes that were read of a stream and not yet used, at most 16,384.
///
/// A window is for one stream, from its first byte on. What it holds behind a message is the front
/// of the next one. Contracts see it as the bytes held.
#[derive(Drop)]
pub struct Window {
    bytes: Vec<u8>,
    start: usize,
    count: usize,
}

impl Model for Window {
    ghost use Rattle.std.specs.Prelude.{◌≡◌, ◌+◌, ◌≤◌, take, drop, vec_len, List, ℕ};

    ghost Value = { List ℕ };

    ghost view = { λ w. take w.count (drop w.start w.bytes.items) };

    ghost invariant = { λ w. (vec_len w.bytes ≡ 16384) × (w.start + w.count ≤ 16384) };
}

impl Window {
    /// A window over a stream of which nothing was read. All its memory is taken here.
    pub fn take(alloc: Global) -> Result<Self, NoMemory>
        ensures { IfOk result (λ window. window ≡ []) }
    {
        Ok(Window {
            bytes: vec![in alloc; 0; CAPACITY]?,
            start: 0,
            count: 0,
        })
    }

    /// The bytes that were read and not yet used.
    pub fn held(&self) -> &[u8]
        ensures bytes { result.now ≡ self.now }
        ensures fits { length result.now ≤ 16384 }
    {
        &self.bytes[self.start..self.start + self.count]
    }

    /// Whether it holds as much as it can.
    pub fn is_full(&self) -> bool
        ensures { MatchBool result (length self.now ≡ 16384) (length self.now < 16384) }
    {
        self.count == CAPACITY
    }

    /// Reads once, behind what is held, and says how many bytes came: zero is the end of the stream.
    /// After [`Failed`] it holds what it held.
    pub fn fill<S: Source>(&mut self, source: &mut S) -> Result<usize, Failed>
        requires { length self.old < 16384 }
        ensures kept { prepend_known self.new (S.left source.new) ≡ prepend_known self.old (S.left source.old) }
        ensures more { IfOk result (λ count. length self.new ≡ length self.old + count) }
        ensures fits { length self.new ≤ 16384 }
        ensures end { IfOk result (λ count. count ≡ 0 → IsAtEnd (S.left source.new)) }
        ensures failed { OnErr result (self.new ≡ self.old) }
        ensures aside { S.aside source.new ≡ S.aside source.old }
        ensures cause { HasCause (S.faults source.old) (S.faults source.new) result }
    {
        self.start = make_room(&mut self.bytes, self.start, self.count);
        let count = read_behind(&mut self.bytes, self.start + self.count, source)?;
        self.count += count;
        Ok(count)
    }

    /// Whether the stream has more bytes, of which it then holds some. After [`Failed`] it holds
    /// none.
    pub fn has_more<S: Source>(&mut self, source: &mut S) -> Result<bool, Failed>
        ensures kept { prepend_known self.new (S.left source.new) ≡ prepend_known self.old (S.left source.old) }
        ensures more { IfOk result (λ more. MatchBool more (0 < length self.new) (IsAtEnd (prepend_known self.old (S.left source.old)))) }
        ensures failed { OnErr result (self.new ≡ []) }
        ensures aside { S.aside source.new ≡ S.aside source.old }
        ensures cause { HasCause (S.faults source.old) (S.faults source.new) result }
    {
        if !self.held().is_empty() {
            return Ok(true);
        }
        let count = self.fill(source)?;
        Ok(count > 0)
    }

    /// Lets go of bytes at the front.
    pub fn drop_front(&mut self, count: usize)
        requires { count ≤ length self.old }
        ensures { self.new ≡ drop count self.old }
    {
        self.start += count;
        self.count -= count;
    }
}

// Where the bytes in use begin once they have room behind them: at the front where they had none.
fn make_room(bytes: &mut Vec<u8>, start: usize, count: usize) -> usize
    requires within { start + count ≤ vec_len bytes.old }
    requires not_full { count < vec_len bytes.old }
    ensures room { result + count < vec_len bytes.new }
    ensures size { vec_len bytes.new ≡ vec_len bytes.old }
    ensures kept { take count (drop result bytes.new.items) ≡ take count (drop start bytes.old.items) }
{
    if start + count < bytes.len() {
        return start;
    }
    bytes.copy_within(start..start + count, 0);
    0
}

// Reads once, into the bytes from `at` on.
fn read_behind<S: Source>(bytes: &mut Vec<u8>, at: usize, source: &mut S) -> Result<usize, Failed>
    requires { at < vec_len bytes.old }
    ensures size { vec_len bytes.new ≡ vec_len bytes.old }
    ensures front { take at bytes.new.items ≡ take at bytes.old.items }
    ensures within { IfOk result (λ count. at + count ≤ vec_len bytes.new) }
    ensures bytes { IfOk result (λ count. S.left source.old ≡ prepend_known (take count (drop at bytes.new.items)) (S.left source.new)) }
    ensures end { IfOk result (λ count. count ≡ 0 → IsAtEnd (S.left source.new)) }
    ensures failed { OnErr result (S.left source.new ≡ S.left source.old) }
    ensures aside { S.aside source.new ≡ S.aside source.old }
    ensures cause { HasCause (S.faults source.old) (S.faults source.new) result }
{
    source.read(&mut bytes[at..])
}
