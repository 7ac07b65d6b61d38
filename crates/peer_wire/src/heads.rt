//! The head of a reply, read until it is whole.

ghost use Rattle.std.specs.Prelude.{◌≡◌, ℕ, ◌<◌, ◌≤◌, List, IfOk, IfSome, length};
ghost use Rattle.httparse.specs.Grammar.{HasNoResponse, ResponseHead};
ghost use Rattle.httparse.specs.Spans.{IsResponseOf, IsResponseWithin};
ghost use Rattle.peer_wire.specs.Answer.{NoReply};
ghost use Rattle.peer_wire.specs.Frames.{IsFrame};
ghost use Rattle.peer_wire.specs.Room.{stream};
ghost use Rattle.peer_wire.specs.Faults.{OnNotAReply, HasReadCause};

use crate::Room;
use crate::faults::ReplyFault;
use crate::fields::{body_length, is_octets};
use http_wire::MOST_HEADERS;
use httparse::Status;
use httparse::spans::{EMPTY_HEADER_SPAN, HeaderSpan, ResponseSpans, parse_response};
use outside_core::Source;

/// What a head says of its reply: its own length, the status, whether the body is raw bytes, and how
/// long it is.
#[derive(Clone, Copy)]
pub(crate) struct Frame {
    pub(crate) len: usize,
    pub(crate) status: u16,
    pub(crate) octets: bool,
    pub(crate) size: usize,
}

/// Reads until the room holds the whole head of a reply, and says how the reply is framed. The head
/// stays in the room.
pub(crate) fn begin_reply<S: Source>(room: &mut Room, source: &mut S) -> Result<Frame, ReplyFault>
    ensures kept { stream room.new (S.left source.new) ≡ stream room.old (S.left source.old) }
    ensures head { IfOk result (λ frame. (h : ResponseHead) × (tail : List ℕ) × IsFrame room.new frame h tail) }
    ensures none { OnNotAReply result (IfSome (stream room.old (S.left source.old)) NoReply) }
    ensures aside { S.aside source.new ≡ S.aside source.old }
    ensures cause { HasReadCause (S.faults source.old) (S.faults source.new) result }
{
    let mut headers = [EMPTY_HEADER_SPAN; MOST_HEADERS];
    let spans = read_head(room, source, &mut headers)?;
    let bytes = room.held();
    let headers = &headers[..spans.headers];
    match body_length(bytes, headers) {
        Some(size) => Ok(Frame {
            len: spans.len,
            status: spans.code,
            octets: is_octets(bytes, headers),
            size: size as usize,
        }),
        None => Err(ReplyFault::NotAReply),
    }
}

fn read_head<S: Source>(
    room: &mut Room,
    source: &mut S,
    headers: &mut [HeaderSpan],
) -> Result<ResponseSpans, ReplyFault>
    requires { length headers.old ≡ 64 }
    ensures kept { stream room.new (S.left source.new) ≡ stream room.old (S.left source.old) }
    ensures head { IfOk result (IsResponseOf room.new headers.new) }
    ensures within { IfOk result (IsResponseWithin room.new headers.new) }
    ensures fits { length room.new ≤ 16384 }
    ensures none { OnNotAReply result (IfSome (stream room.old (S.left source.old)) NoReply) }
    ensures aside { S.aside source.new ≡ S.aside source.old }
    ensures cause { HasReadCause (S.faults source.old) (S.faults source.new) result }
{
    'more: loop {
        match parse_response(room.held(), headers) {
            Ok(Status::Complete(spans)) => return Ok(spans),
            Ok(Status::Partial) => read_on(room, source)?,
            Err(_) => return Err(ReplyFault::NotAReply),
        }
    }
}

// Reads more of a head, of which the room holds a part, or nothing.
fn read_on<S: Source>(room: &mut Room, source: &mut S) -> Result<(), ReplyFault>
    requires unfinished { HasNoResponse room.old }
    ensures kept { stream room.new (S.left source.new) ≡ stream room.old (S.left source.old) }
    ensures more { IfOk result (λ _. length room.old < length room.new) }
    ensures fits { length room.new ≤ 16384 }
    ensures none { OnNotAReply result (IfSome (stream room.old (S.left source.old)) NoReply) }
    ensures aside { S.aside source.new ≡ S.aside source.old }
    ensures cause { HasReadCause (S.faults source.old) (S.faults source.new) result }
{
    if room.is_full() {
        return Err(ReplyFault::NotAReply);
    }
    let count = room.fill(source)?;
    if count == 0 {
        return Err(ReplyFault::NotAReply);
    }
    Ok(())
}
