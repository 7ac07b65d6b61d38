//! What a request asks, what came of it, and lines that tell it.
use doc_tree::{Bytes, NoMemory, Text};
use outside_core::{Sink, Source};
use peer_wire::{Ask, Reply, ReplyFault, Room, Verb, Whom, WriteFault, read_reply, write_request};
use std::alloc::Global;

/// A reply of 72 bytes.
pub(crate) const REPLY: &[u8] =
    b"HTTP/1.1 200 OK\r\nContent-Type: application/json\r\nContent-Length: 2\r\n\r\n{}";

/// The caller and the server of each test.
pub(crate) fn whom(alloc: Global) -> Result<Whom, NoMemory> {
    Ok(Whom {
        org: Text::from_str(alloc, "acme")?,
        caller: Text::from_str(alloc, "alice")?,
        host: Text::from_str(alloc, "chef.example")?,
        port: 4000,
    })
}

/// What comes of a request with this method and this body.
pub(crate) fn asks<K: Sink>(
    alloc: Global,
    sink: &mut K,
    verb: Verb,
    body: &'static [u8],
) -> Result<&'static str, NoMemory> {
    let whom = whom(alloc)?;
    let ask = Ask {
        verb,
        target: Text::from_str(alloc, "/organizations/acme/nodes/web1")?,
        body: Bytes::constant(body),
    };
    Ok(match write_request(alloc, sink, &ask, &whom) {
        Ok(()) => "written",
        Err(WriteFault::Failed) => "write fault",
        Err(WriteFault::NoMemory) => "out of memory",
    })
}

/// The next reply as a line, or what came in its place.
pub(crate) fn next_reply<S: Source>(
    alloc: Global,
    source: &mut S,
    room: &mut Room,
) -> Result<String, NoMemory> {
    match read_reply(alloc, source, room) {
        Ok(reply) => line_of(alloc, &reply),
        Err(ReplyFault::ReadFault) => Ok("read fault".to_string(alloc)?),
        Err(ReplyFault::NotAReply) => Ok("no reply".to_string(alloc)?),
        Err(ReplyFault::NoMemory) => Ok("out of memory".to_string(alloc)?),
    }
}

fn line_of(alloc: Global, reply: &Reply) -> Result<String, NoMemory> {
    let status = reply.status;
    let kind = if reply.octets { "octets" } else { "json" };
    let body = String::from_utf8_lossy(alloc, reply.body.as_slice())?;
    Ok(format!(in alloc; "{status} {kind} {body}")?)
}

/// Appends a line.
pub(crate) fn add(lines: &mut String, line: &str) -> Result<(), NoMemory> {
    lines.push_str(line)?;
    Ok(lines.push('\n')?)
}
