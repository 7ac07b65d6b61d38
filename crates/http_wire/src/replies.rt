//! Replies as bytes.
ghost use Rattle.std.specs.Prelude.{◌≡◌, ℕ, ◌+◌, ◌≤◌, ◌++◌, Bool, List, [], OnOk, OnErr, length};
ghost use Rattle.std.specs.Io.KnownBytes.{append_known};
ghost use Rattle.arrayvec.specs.ArrayVec.{array_vec_len};
ghost use Rattle.outside_core.specs.Failed.{HasCause};
ghost use Rattle.outside_core.specs.Sink.{GainsPart, PassesOn};
ghost use Rattle.http_wire.specs.Replies as spec;

use arrayvec::ArrayVec;
use itoa::Buffer;
use org_requests::Reply;
use outside_core::{Buffered, Failed, Sink};

/// The most bytes that the head of a reply has, with some to spare.
const HEAD: usize = 192;

/// Writes a reply to a sink: its head, and then its body. It takes no memory.
///
/// After [`Failed`] the sink has gained a front of the reply's text.
pub fn write_reply<K: Sink>(sink: &mut K, reply: &Reply) -> Result<(), Failed>
    ensures ok { OnOk result (K.gained sink.new ≡ append_known (K.gained sink.old) (spec.reply_text reply.now)) }
    ensures failed { OnErr result (GainsPart (K.gained sink.old) (K.gained sink.new) (spec.reply_text reply.now)) }
    ensures aside { K.aside sink.new ≡ K.aside sink.old }
    ensures cause { HasCause (K.faults sink.old) (K.faults sink.new) result }
{
    let body = reply.body.as_slice();
    let head = head_of(reply.status, reply.octets, body.len());
    sink.write(&head)?;
    sink.write(body)
}

/// Writes a reply behind what waits in a buffer before the sink. It takes no memory.
///
/// After [`Failed`] the sink has gained a front of what waited and the reply's text, and nothing
/// waits.
pub fn buffer_reply<K: Sink>(
    buffer: &mut Buffered,
    sink: &mut K,
    reply: &Reply,
) -> Result<(), Failed>
    ensures ok { OnOk result (PassesOn (K.gained sink.old) (K.gained sink.new) (buffer.old.waiting ++ spec.reply_text reply.now) buffer.new.waiting) }
    ensures failed { OnErr result (GainsPart (K.gained sink.old) (K.gained sink.new) (buffer.old.waiting ++ spec.reply_text reply.now)) }
    ensures dropped { OnErr result (buffer.new.waiting ≡ []) }
    ensures capacity { buffer.new.capacity ≡ buffer.old.capacity }
    ensures aside { K.aside sink.new ≡ K.aside sink.old }
    ensures cause { HasCause (K.faults sink.old) (K.faults sink.new) result }
{
    let body = reply.body.as_slice();
    let head = head_of(reply.status, reply.octets, body.len());
    buffer.write(sink, &head)?;
    buffer.write(sink, body)
}

/// How many bytes a reply has as a message.
pub fn reply_length(reply: &Reply) -> usize
    ensures { result ≡ length (spec.reply_text reply.now) }
{
    let body = reply.body.as_slice();
    let head = head_of(reply.status, reply.octets, body.len());
    head.len() + body.len()
}

// The status line and the headers of a reply, and the empty line.
fn head_of(status: u16, octets: bool, size: usize) -> ArrayVec<u8, HEAD>
    ensures { result.items ≡ spec.head_text status octets size }
{
    let mut head = ArrayVec::new();
    push(&mut head, b"HTTP/1.1 ");
    push(&mut head, Buffer::new().format(status).as_bytes());
    push(&mut head, b" ");
    push(&mut head, phrase(status).as_bytes());
    push(&mut head, b"\r\nContent-Type: ");
    push(&mut head, content_type(octets).as_bytes());
    push(&mut head, b"\r\nContent-Length: ");
    push(&mut head, Buffer::new().format(size).as_bytes());
    push(&mut head, b"\r\n\r\n");
    head
}

// Appends the piece, which has room.
fn push(head: &mut ArrayVec<u8, HEAD>, piece: &[u8])
    requires { array_vec_len head.old + length piece.now ≤ 192 }
    ensures items { head.new.items ≡ head.old.items ++ piece.now }
    ensures len { array_vec_len head.new ≡ array_vec_len head.old + length piece.now }
{
    let _ = head.try_extend_from_slice(piece);
}

#[tactic(auto, unfolding(crate::specs::Replies::content_type))]
fn content_type(octets: bool) -> &'static str
    ensures text { result.now ≡ spec.content_type octets }
    ensures short { length result.now ≤ 24 }
{
    if octets {
        "application/octet-stream"
    } else {
        "application/json"
    }
}

#[tactic(auto, unfolding(crate::specs::Replies::phrase))]
fn phrase(status: u16) -> &'static str
    ensures text { result.now ≡ spec.phrase status }
    ensures short { length result.now ≤ 21 }
{
    match status {
        200 => "OK",
        201 => "Created",
        400 => "Bad Request",
        401 => "Unauthorized",
        403 => "Forbidden",
        404 => "Not Found",
        405 => "Method Not Allowed",
        406 => "Not Acceptable",
        409 => "Conflict",
        412 => "Precondition Failed",
        413 => "Payload Too Large",
        500 => "Internal Server Error",
        501 => "Not Implemented",
        503 => "Service Unavailable",
        _ => "",
    }
}
