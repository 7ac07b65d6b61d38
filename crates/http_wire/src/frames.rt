//! How a message is framed: its head, and the size that the head says of its body.
ghost use Rattle.std.specs.Prelude.{◌≡◌, ℕ, ◌+◌, ◌-◌, ◌<◌, ◌≤◌, ◌++◌, List, IfOk, IfSome, IfNone, OnOk, OnErr, MatchBool, All, length, take, map};
ghost use Rattle.std.specs.Io.KnownBytes.{IsAtEnd, prepend_known};
ghost use Rattle.httparse.specs.Grammar.{RequestHead};
ghost use Rattle.httparse.specs.Spans.{IsHeaderWithin, IsRequestAt, IsRequestOf, IsRequestWithin, header_bytes};
ghost use Rattle.http_wire.specs.Message.{Message, Begins, BeginsNone, last_place};
ghost use Rattle.http_wire.specs.Frames.{framed_size, IsFramed};
ghost use Rattle.http_wire.specs.Bodies.{IsBody};
ghost use Rattle.http_wire.specs.Room.{stream};
ghost use Rattle.http_wire.specs.Splits.{LosesFront};
ghost use Rattle.http_wire.specs.Faults.{OnNotAMessage, OnReadFault, NoneBeginsIn, HasReadCause};

use crate::bodies::{KeptBody, read_body};
use crate::faults::WireFault;
use crate::fields::body_length;
use crate::heads::{MOST_HEADERS, read_head};
use crate::room::Room;
use http_routes::BodyForm;
use httparse::Status;
use httparse::spans::{EMPTY_HEADER_SPAN, HeaderSpan, RequestSpans, parse_request};
use outside_core::Source;
use std::alloc::Global;

/// The place in a stream after which no message ends: 2^40.
const LAST_PLACE: u64 = 1_099_511_627_776;

/// A message whose head stands at the front of a room: where its parts are, and the size of its body.
#[derive(Clone, Copy)]
pub(crate) struct Frame {
    pub(crate) spans: RequestSpans,
    pub(crate) size: usize,
}

/// Reads until the room holds the head of the next message, and says how the message is framed, or
/// that the stream is at its end. The head stays in the room.
pub(crate) fn begin_message<S: Source>(
    room: &mut Room,
    source: &mut S,
    headers: &mut [HeaderSpan],
) -> Result<Option<Frame>, WireFault>
    requires { length headers.old ≡ 64 }
    ensures kept { stream room.new (S.left source.new) ≡ stream room.old (S.left source.old) }
    ensures head { IfOk result (λ o. IfSome o (λ frame. (head : RequestHead)
        × IsRequestAt room.new.held headers.new frame.spans head × IsFramed room.new.place head frame.size)) }
    ensures within { IfOk result (λ o. IfSome o (λ frame. IsRequestWithin room.new.held headers.new frame.spans)) }
    ensures end { IfOk result (λ o. IfNone o (IsAtEnd (stream room.old (S.left source.old)))) }
    ensures none { OnNotAMessage result (λ place. (place ≡ room.old.place) × NoneBeginsIn place (stream room.old (S.left source.old))) }
    ensures partial { OnReadFault result (BeginsNone (last_place - room.old.place) room.new.held) }
    ensures place { room.new.place ≡ room.old.place }
    ensures aside { S.aside source.new ≡ S.aside source.old }
    ensures cause { HasReadCause (S.faults source.old) (S.faults source.new) result }
{
    let Some(spans) = read_head(room, source, headers)? else {
        return Ok(None);
    };
    match size_of(
        room.held(),
        &headers[..spans.headers],
        room.place(),
        spans.len,
    ) {
        Some(size) => Ok(Some(Frame { spans, size })),
        None => Err(room.no_message()),
    }
}

// The size of the body behind a head of this length, where the head says it and the message ends in time.
fn size_of(held: &[u8], headers: &[HeaderSpan], place: u64, len: usize) -> Option<usize>
    requires headers { All (IsHeaderWithin (length held.now)) headers.now }
    requires early { place ≤ 1099511627776 }
    requires short { len ≤ 16384 }
    ensures { result ≡ framed_size place len (map (header_bytes held.now) headers.now) }
{
    let size = body_length(held, headers)?;
    if place + len as u64 + size > LAST_PLACE {
        return None;
    }
    Some(size as usize)
}

/// Reads the body of this form behind a head of this length, which stands at the front of the room, and lets go
/// of the whole message.
pub(crate) fn end_message<S: Source>(
    alloc: Global,
    room: &mut Room,
    source: &mut S,
    len: usize,
    form: BodyForm,
    size: usize,
) -> Result<KeptBody, WireFault>
    requires head { len ≤ length room.old.held }
    requires ends { room.old.place + len + size ≤ 1099511627776 }
    ensures body { IfOk result (λ body. (bytes : List ℕ) × (length bytes ≡ size) × IsBody form size bytes body
        × (stream room.old (S.left source.old) ≡ prepend_known (take len room.old.held) (prepend_known bytes (stream room.new (S.left source.new))))) }
    ensures place { OnOk result (room.new.place ≡ room.old.place + (len + size)) }
    ensures none { OnNotAMessage result (λ place. (place ≡ room.old.place)
        × IfSome (stream room.old (S.left source.old)) (λ bytes. length bytes < len + size)) }
    ensures partial { OnReadFault result ((taken : List ℕ) × (length taken < size)
        × (stream room.old (S.left source.old) ≡ prepend_known (take len room.old.held) (prepend_known taken (S.left source.new)))) }
    ensures lost { OnErr result (LosesFront (stream room.old (S.left source.old)) (stream room.new (S.left source.new))) }
    ensures stays { OnErr result (room.new.place ≡ room.old.place) }
    ensures aside { S.aside source.new ≡ S.aside source.old }
    ensures cause { HasReadCause (S.faults source.old) (S.faults source.new) result }
{
    room.drop_front(len);
    let body = read_body(alloc, room, source, form, size)?;
    room.advance((len + size) as u64);
    Ok(body)
}

impl Room {
    /// Whether it holds a whole message, so that the next one is there without a read.
    pub fn holds_message(&self) -> bool
        ensures { MatchBool result ((m : Message) × (rest : List ℕ) × Begins (last_place - self.now.place) self.now.held m rest)
            (BeginsNone (last_place - self.now.place) self.now.held) }
    {
        let mut headers = [EMPTY_HEADER_SPAN; MOST_HEADERS];
        match parse_request(self.held(), &mut headers) {
            Ok(Status::Complete(spans)) => holds_body(self.held(), &headers, self.place(), spans),
            _ => false,
        }
    }
}

// Whether the body behind the head is held too, and the message ends in time.
fn holds_body(held: &[u8], headers: &[HeaderSpan], place: u64, spans: RequestSpans) -> bool
    requires head { IsRequestOf held.now headers.now spans }
    requires within { IsRequestWithin held.now headers.now spans }
    requires few { length headers.now ≡ 64 }
    requires early { place ≤ 1099511627776 }
    requires short { length held.now ≤ 16384 }
    ensures { MatchBool result ((m : Message) × (rest : List ℕ) × Begins (last_place - place) held.now m rest)
        (BeginsNone (last_place - place) held.now) }
{
    match size_of(held, &headers[..spans.headers], place, spans.len) {
        Some(size) => spans.len + size <= held.len(),
        None => false,
    }
}
