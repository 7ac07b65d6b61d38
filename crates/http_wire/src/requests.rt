//! The next message of a stream, as the request that it spells.
ghost use Rattle.std.specs.Prelude.{◌≡◌, ℕ, ◌+◌, ◌-◌, ◌≤◌, List, IsErr, IsSome, IfOk, IfSome, IfNone, IsSomeAnd, OnErr, length};
ghost use Rattle.std.specs.Io.KnownBytes.{IsAtEnd, prepend_known};
ghost use Rattle.httparse.specs.Grammar.{RequestHead};
ghost use Rattle.httparse.specs.Spans.{IsRequestAt, IsRequestWithin};
ghost use Rattle.org_requests.specs.declared.requests.Request.{Request as Said};
ghost use Rattle.http_routes.specs.Bodies.{body_as, form_in};
ghost use Rattle.http_routes.specs.Requests as spelled;
ghost use Rattle.http_wire.specs.Bodies.{IsBody};
ghost use Rattle.http_wire.specs.Faults.{OnNotAMessage, OnReadFault, NoneBeginsIn, HasReadCause};
ghost use Rattle.http_wire.specs.Frames.{IsFramed};
ghost use Rattle.http_wire.specs.Message.{Message, print_message, BeginsNone, NoneBegins, last_place};
ghost use Rattle.http_wire.specs.Requests.{request_of, callers_in, versions_in, connections_in};
ghost use Rattle.org_requests.specs.Requests.{IsRead};
ghost use Rattle.http_wire.specs.Room.{stream};
ghost use Rattle.http_wire.specs.Splits.{Takes, LosesFront};

use crate::bodies::KeptBody;
use crate::faults::WireFault;
use crate::fields::{closes, value_named};
use crate::frames::{Frame, begin_message, end_message};
use crate::heads::MOST_HEADERS;
use crate::room::Room;
use doc_tree::NoMemory;
use http_routes::{BodyForm, Head, Routes, body_of};
use httparse::spans::{EMPTY_HEADER_SPAN, HeaderSpan, RequestSpans};
use org_requests::{Body, Parameters, Place, Request, Verb};
use outside_core::Source;
use std::alloc::Global;

/// Reads the next message of a stream to its end, as the request that it spells. `None` is the end
/// of the stream, between two messages.
///
/// A request whose parts or body find no memory is read to its end all the same, and has the place
/// `NoMemory`. [`WireFault::ReadFault`] comes only where the source counted a fault, and
/// [`WireFault::NotAMessage`] only where bytes are left that begin no whole message; where that is so,
/// no message is read. After either, of what the room held and the source had left some front may be
/// gone, and what both have now is the rest of it; the room's place stays that of the message which
/// wasn't read, so the stream isn't to be read on.
pub fn read_message<S: Source>(
    alloc: Global,
    source: &mut S,
    room: &mut Room,
) -> Result<Option<Request>, WireFault>
    ensures message { IfOk result (λ o. IfSome o (λ read. (m : Message) × IsRead read (request_of m)
        × Takes room.old.place (stream room.old (S.left source.old)) (stream room.new (S.left source.new)) m
        × (room.new.place ≡ room.old.place + length (print_message m)))) }
    ensures end { IfOk result (λ o. IfNone o (IsAtEnd (stream room.old (S.left source.old)) × IsAtEnd (S.left source.new))) }
    ensures none { OnNotAMessage result (λ place. (place ≡ room.old.place) × NoneBeginsIn place (stream room.old (S.left source.old))) }
    ensures exactly { IsSomeAnd (stream room.old (S.left source.old)) (NoneBegins room.old.place) → IsErr result }
    ensures partial { OnReadFault result ((taken : List ℕ) × BeginsNone (last_place - room.old.place) taken
        × (stream room.old (S.left source.old) ≡ prepend_known taken (S.left source.new))) }
    // After a fault what is left is the rest of what was left, in the room and in the source, and the place is that of the message which wasn't read.
    ensures lost { OnErr result (LosesFront (stream room.old (S.left source.old)) (stream room.new (S.left source.new))) }
    ensures stays { OnErr result (room.new.place ≡ room.old.place) }
    ensures aside { S.aside source.new ≡ S.aside source.old }
    ensures cause { HasReadCause (S.faults source.old) (S.faults source.new) result }
{
    let mut headers = [EMPTY_HEADER_SPAN; MOST_HEADERS];
    match begin_message(room, source, &mut headers)? {
        Some(frame) => Ok(Some(read_framed(alloc, source, room, &headers, frame)?)),
        None => Ok(None),
    }
}

// Reads the message whose head the room holds.
fn read_framed<S: Source>(
    alloc: Global,
    source: &mut S,
    room: &mut Room,
    headers: &[HeaderSpan],
    frame: Frame,
) -> Result<Request, WireFault>
    requires head { (head : RequestHead) × IsRequestAt room.old.held headers.now frame.spans head × IsFramed room.old.place head frame.size }
    requires within { IsRequestWithin room.old.held headers.now frame.spans }
    ensures message { IfOk result (λ read. (m : Message) × IsRead read (request_of m)
        × Takes room.old.place (stream room.old (S.left source.old)) (stream room.new (S.left source.new)) m
        × (room.new.place ≡ room.old.place + length (print_message m))) }
    ensures none { OnNotAMessage result (λ place. (place ≡ room.old.place) × NoneBeginsIn place (stream room.old (S.left source.old))) }
    ensures partial { OnReadFault result ((taken : List ℕ) × BeginsNone (last_place - room.old.place) taken
        × (stream room.old (S.left source.old) ≡ prepend_known taken (S.left source.new))) }
    ensures lost { OnErr result (LosesFront (stream room.old (S.left source.old)) (stream room.new (S.left source.new))) }
    ensures stays { OnErr result (room.new.place ≡ room.old.place) }
    ensures aside { S.aside source.new ≡ S.aside source.old }
    ensures cause { HasReadCause (S.faults source.old) (S.faults source.new) result }
{
    let head = read_parts(alloc, room.routes(), room.held(), headers, frame.spans);
    let form = body_form(&head);
    match end_message(alloc, room, source, frame.spans.len, form, frame.size) {
        Ok(body) => Ok(request_from(alloc, head, form, body)),
        Err(fault) => {
            drop(head);
            Err(fault)
        }
    }
}

// What the head says of the request, copied out of the room, which the body may need.
fn read_parts(
    alloc: Global,
    routes: &Routes,
    held: &[u8],
    headers: &[HeaderSpan],
    spans: RequestSpans,
) -> Result<Head, NoMemory>
    requires { IsRequestWithin held.now headers.now spans }
    ensures { (head : RequestHead) → IsRequestAt held.now headers.now spans head
        → IfOk result (λ said. said.request ≡ spelled.head_in head.method head.target (callers_in head) (versions_in head) (connections_in head)) }
{
    let headers = &headers[..spans.headers];
    let caller = value_named(held, headers, b"x-ops-userid");
    let version = value_named(held, headers, b"x-ops-server-api-version");
    let close = closes(held, headers);
    Head::read(
        alloc,
        routes,
        spans.method.of(held),
        spans.path.of(held),
        caller,
        version,
        close,
    )
}

// The form of the body behind a head. A body whose head found no memory isn't looked at.
fn body_form(head: &Result<Head, NoMemory>) -> BodyForm
    ensures { IfOk head.now (λ said. result ≡ form_in said.request) }
{
    match head {
        Ok(head) => head.body_form(),
        Err(NoMemory) => BodyForm::Dropped,
    }
}

// The request of a head and a body, or one without a place where memory was wanting for either.
fn request_from(
    alloc: Global,
    head: Result<Head, NoMemory>,
    form: BodyForm,
    body: KeptBody,
) -> Request
    ensures { (said : Said) (bytes : List ℕ) → IfOk head (λ h. h.request ≡ said) → IfOk head (λ h. form ≡ form_in h.request)
        → IsBody form (length bytes) bytes body → IsRead result (spelled.request_of said bytes) }
{
    match head {
        Ok(head) => request_with(alloc, head, form, body),
        Err(NoMemory) => lost(alloc),
    }
}

fn request_with(alloc: Global, head: Head, form: BodyForm, body: KeptBody) -> Request
    ensures { (bytes : List ℕ) → form ≡ form_in head.request → IsBody form (length bytes) bytes body
        → IsRead result (spelled.request_of head.request bytes) }
{
    match parsed(alloc, form, body) {
        Ok(body) => placed(alloc, head, body),
        Err(NoMemory) => {
            drop(head);
            lost(alloc)
        }
    }
}

fn placed(alloc: Global, head: Head, body: Body) -> Request
    ensures { IsRead result (spelled.request_with head.request body) }
{
    match head.with_body(alloc, body) {
        Ok(request) => request,
        Err(NoMemory) => lost(alloc),
    }
}

// The body in its form.
fn parsed(alloc: Global, form: BodyForm, body: KeptBody) -> Result<Body, NoMemory>
    ensures { (bytes : List ℕ) → IsBody form (length bytes) bytes body → IfOk result (λ b. b ≡ body_as form bytes) }
{
    match body {
        KeptBody::Whole(bytes) => body_of(alloc, form, bytes),
        KeptBody::Skipped => Ok(Body::Empty),
        KeptBody::TooLong => Ok(Body::TooLong),
        KeptBody::NoMemory => Err(NoMemory),
    }
}

// A request whose parts found no memory.
fn lost(alloc: Global) -> Request
    ensures { result.place ≡ Place.NoMemory }
{
    Request {
        caller: None,
        api: None,
        verb: Verb::Other,
        place: Place::NoMemory,
        parameters: Parameters::new(alloc),
        body: Body::Empty,
        close: false,
    }
}
