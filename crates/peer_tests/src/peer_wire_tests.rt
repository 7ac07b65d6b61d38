// The bytes of requests, and which bytes are a reply (RFC 9112).
use crate::talking::{REPLY, add, asks, next_reply};
use doc_tree::NoMemory;
use outside_core::{MemSink, MemSource};
use peer_wire::{Room, Verb};
use std::alloc::Global;
use std::test::Fail;

const REQUESTS: &str =
    "GET /organizations/acme/nodes/web1 HTTP/1.1\r\nHost: chef.example:4000\r\nX-Ops-UserId: alice\r\n\
    X-Ops-Server-API-Version: 1\r\nContent-Length: 0\r\n\r\n\
    POST /organizations/acme/nodes/web1 HTTP/1.1\r\nHost: chef.example:4000\r\nX-Ops-UserId: alice\r\n\
    X-Ops-Server-API-Version: 1\r\nContent-Length: 15\r\n\r\n{\"name\":\"web1\"}\
    PUT /organizations/acme/nodes/web1 HTTP/1.1\r\nHost: chef.example:4000\r\nX-Ops-UserId: alice\r\n\
    X-Ops-Server-API-Version: 1\r\nContent-Length: 2\r\n\r\n{}\
    DELETE /organizations/acme/nodes/web1 HTTP/1.1\r\nHost: chef.example:4000\r\nX-Ops-UserId: alice\r\n\
    X-Ops-Server-API-Version: 1\r\nContent-Length: 0\r\n\r\n";

#[test]
fn each_method_has_its_request(rt: HostRuntime) -> Result<(), Fail> {
    let alloc = rt.alloc();
    let mut sink = MemSink::new(alloc, Vec::new(alloc), 1000)?;
    asks(alloc, &mut sink, Verb::Get, b"")?;
    asks(alloc, &mut sink, Verb::Post, b"{\"name\":\"web1\"}")?;
    asks(alloc, &mut sink, Verb::Put, b"{}")?;
    asks(alloc, &mut sink, Verb::Delete, b"")?;
    assert_eq!(rt; sink.bytes(), REQUESTS.as_bytes());
    Ok(())
}

// What is read of these bytes, so many of them in a read at most. The second read fails where it is to.
fn read(alloc: Global, bytes: &[u8], piece: usize, fails: bool) -> Result<String, NoMemory> {
    let mut failing = Vec::new(alloc);
    if fails {
        failing.push(2)?;
    }
    let mut source = MemSource::new(bytes.to_vec(alloc)?, piece.max(1), failing);
    let mut room = Room::take(alloc)?;
    next_reply(alloc, &mut source, &mut room)
}

#[test]
fn a_reply_is_read_in_pieces_and_none_where_it_is_cut(rt: HostRuntime) -> Result<(), Fail> {
    let alloc = rt.alloc();
    let mut told = String::new(alloc);
    for piece in [1, 2, 7, 71, 1000] {
        add(&mut told, &read(alloc, REPLY, piece, false)?)?;
    }
    for size in 0..=REPLY.len() {
        let line = read(alloc, &REPLY[..size], 1000, false)?;
        if line.as_str() != "no reply" {
            add(&mut told, &line)?;
        }
    }
    assert_eq!(rt; told.as_str(), "200 json {}\n".repeat(alloc, 6)?.as_str());
    Ok(())
}

// A reply's status line and headers, which `|` parts, behind what is read of them with the body `x`.
// A body that is longer waits for a second read, which fails.
const HEADS: &str = "200 json x<200 OK|Content-Length: 1\n\
    200 json <200 OK|Content-Length: 0\n\
    404 json x<404 Not Found|Content-Type: application/json|Content-Length: 1\n\
    200 octets x<200 OK|Content-Type: application/octet-stream|Content-Length: 1\n\
    200 octets x<200 OK|CONTENT-TYPE: application/octet-stream|content-length: 1\n\
    200 octets x<200 OK|Content-Type: text/plain|Content-Type: application/octet-stream|Content-Length: 1\n\
    200 json x<200 OK|Content-Type: application/octet-stream; x=y|Content-Length: 1\n\
    299 json x<299 |Content-Length: 1\n\
    200 json x<200 OK|Content-Length: 00000000000000000001\n\
    no reply<200 OK|Content-Length: 000000000000000000001\n\
    no reply<200 OK|Content-Length: +1\n\
    no reply<200 OK|Content-Length: 1, 1\n\
    no reply<200 OK|Content-Length:\n\
    no reply<200 OK\n\
    no reply<200 OK|Content-Length: 1|Content-Length: 1\n\
    no reply<200 OK|Content-Length: 1|content-length: 2\n\
    no reply<200 OK|Transfer-Encoding: identity|Content-Length: 1\n\
    no reply<200 OK|Transfer-Encoding: chunked\n\
    read fault<200 OK|Content-Length: 2\n\
    read fault<200 OK|Content-Length: 67108864\n\
    no reply<200 OK|Content-Length: 67108865\n\
    no reply<20 OK|Content-Length: 1\n\
    no reply<2000 OK|Content-Length: 1";

// The reply with this status line and these headers, and the body `x`.
fn with_head(alloc: Global, head: &str) -> Result<Vec<u8>, NoMemory> {
    let mut text = b"HTTP/1.1 ".to_vec(alloc)?;
    for line in head.split('|') {
        text.extend_from_slice(line.as_bytes())?;
        text.extend_from_slice(b"\r\n")?;
    }
    text.extend_from_slice(b"\r\nx")?;
    Ok(text)
}

#[test]
fn a_head_says_how_long_its_body_is(rt: HostRuntime) -> Result<(), Fail> {
    let alloc = rt.alloc();
    for row in HEADS.lines() {
        let (expected, head) = row.split_once('<').ok_or("a row")?;
        let told = read(alloc, &with_head(alloc, head)?, 1000, true)?;
        assert_eq!(rt; told.as_str(), expected, "{head}");
    }
    Ok(())
}

// A reply with so many headers, the last of which has a value of so many bytes.
fn with_headers(alloc: Global, count: usize, size: usize) -> Result<Vec<u8>, NoMemory> {
    let mut text = b"HTTP/1.1 200 OK\r\nContent-Length: 1\r\n".to_vec(alloc)?;
    for _ in 2..count {
        text.extend_from_slice(b"A: b\r\n")?;
    }
    text.extend_from_slice(b"A: ")?;
    for _ in 0..size {
        text.push(b'c')?;
    }
    text.extend_from_slice(b"\r\n\r\nx")?;
    Ok(text)
}

// Two headers are 43 bytes with the status line and the empty line, and the second one's value.
#[test]
fn a_head_has_at_most_64_headers_and_16384_bytes(rt: HostRuntime) -> Result<(), Fail> {
    let alloc = rt.alloc();
    let mut told = String::new(alloc);
    for (count, size) in [(64, 1), (65, 1), (2, 16_341), (2, 16_342)] {
        let text = with_headers(alloc, count, size)?;
        add(&mut told, &read(alloc, &text, 1000, false)?)?;
    }
    assert_eq!(rt;
        told.as_str(),
        "200 json x\nno reply\n200 json x\nno reply\n"
    );
    Ok(())
}
