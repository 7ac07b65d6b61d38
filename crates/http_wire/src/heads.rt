//! The head of a message, read until it is whole.
ghost use Rattle.std.specs.Prelude.{◌≡◌, ◌≢◌, ◌+◌, ◌-◌, ◌<◌, ◌≤◌, [], IfOk, IfSome, IfNone, OnErr, MatchBool, length};
ghost use Rattle.std.specs.Io.KnownBytes.{IsAtEnd};
ghost use Rattle.httparse.specs.Grammar.{HasNoRequest};
ghost use Rattle.httparse.specs.Spans.{IsRequestOf, IsRequestWithin};
ghost use Rattle.http_wire.specs.Message.{BeginsNone, last_place};
ghost use Rattle.http_wire.specs.Room.{stream};
ghost use Rattle.http_wire.specs.Faults.{OnNotAMessage, OnReadFault, NoneBeginsIn, HasReadCause};

use crate::faults::WireFault;
use crate::room::Room;
use httparse::Status;
use httparse::spans::{HeaderSpan, RequestSpans, parse_request};
use outside_core::Source;

/// The most headers that a message may have.
pub const MOST_HEADERS: usize = 64;

/// Reads until the room holds the whole head of a message, and says where its parts are, or that
/// the stream is at its end. The head stays in the room.
pub(crate) fn read_head<S: Source>(
    room: &mut Room,
    source: &mut S,
    headers: &mut [HeaderSpan],
) -> Result<Option<RequestSpans>, WireFault>
    requires { length headers.old ≡ 64 }
    ensures kept { stream room.new (S.left source.new) ≡ stream room.old (S.left source.old) }
    ensures head { IfOk result (λ o. IfSome o (IsRequestOf room.new.held headers.new)) }
    ensures within { IfOk result (λ o. IfSome o (IsRequestWithin room.new.held headers.new)) }
    ensures end { IfOk result (λ o. IfNone o (IsAtEnd (stream room.old (S.left source.old)))) }
    ensures none { OnNotAMessage result (λ place. (place ≡ room.old.place) × NoneBeginsIn place (stream room.old (S.left source.old))) }
    ensures partial { OnReadFault result (BeginsNone (last_place - room.old.place) room.new.held) }
    ensures place { room.new.place ≡ room.old.place }
    ensures aside { S.aside source.new ≡ S.aside source.old }
    ensures cause { HasReadCause (S.faults source.old) (S.faults source.new) result }
{
    if !room.has_more(source)? {
        return Ok(None);
    }
    'more: loop {
        match parse_request(room.held(), headers) {
            Ok(Status::Complete(spans)) => return Ok(Some(spans)),
            Ok(Status::Partial) => read_on(room, source)?,
            Err(_) => return Err(room.no_message()),
        }
    }
}

// Reads more of a head, of which the room holds a part and has room for more.
fn read_on<S: Source>(room: &mut Room, source: &mut S) -> Result<(), WireFault>
    requires begun { 0 < length room.old.held }
    requires unfinished { HasNoRequest room.old.held }
    ensures kept { stream room.new (S.left source.new) ≡ stream room.old (S.left source.old) }
    ensures more { IfOk result (λ _. length room.old.held < length room.new.held) }
    ensures fits { length room.new.held ≤ 16384 }
    ensures none { OnNotAMessage result (λ place. (place ≡ room.old.place) × NoneBeginsIn place (stream room.old (S.left source.old))) }
    ensures partial { OnReadFault result (room.new.held ≡ room.old.held) }
    ensures place { room.new.place ≡ room.old.place }
    ensures aside { S.aside source.new ≡ S.aside source.old }
    ensures cause { HasReadCause (S.faults source.old) (S.faults source.new) result }
{
    if room.is_full() {
        return Err(room.no_message());
    }
    let count = room.fill(source)?;
    if count == 0 {
        return Err(room.no_message());
    }
    Ok(())
}
