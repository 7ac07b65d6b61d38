//! What headers say of the connection, what a room holds, and the bytes of replies.
use doc_tree::{Bytes, NoMemory};
use http_wire::{Room, buffer_reply, read_message, reply_length, write_reply};
use org_requests::Reply;
use outside_core::{Buffered, MemSink, MemSource};
use std::alloc::Global;
use std::test::Fail;

// Whether the connection is to be closed behind a message with these headers, which `|` parts.
const CLOSE: &str = "open:\n\
    close:Connection: close\n\
    close:connection:CLOSE\n\
    open:Connection: keep-alive\n\
    close:Connection: keep-alive, Close\n\
    close:Connection: close, keep-alive\n\
    close:Connection: keep-alive|Connection: close\n\
    close:Connection: close|Connection: keep-alive\n\
    close:Connection: x ,\t close\t ,y\n\
    open:Connection:\n\
    open:Connection: closed, clo se\n\
    open:Connection: \"close\"\n\
    open:X-Connection: close\n\
    open:Connection: upgrade|Upgrade: close";

// A message with these headers.
fn with_headers(alloc: Global, headers: &str) -> Result<Vec<u8>, NoMemory> {
    let mut text = b"GET / HTTP/1.1\r\n".to_vec(alloc)?;
    for header in headers.split('|') {
        text.extend_from_slice(header.as_bytes())?;
        if !header.is_empty() {
            text.extend_from_slice(b"\r\n")?;
        }
    }
    text.extend_from_slice(b"\r\n")?;
    Ok(text)
}

// What becomes of the connection behind a message.
fn connection(alloc: Global, text: Vec<u8>) -> Result<&'static str, NoMemory> {
    let mut input = MemSource::new(text, 100, Vec::new(alloc));
    let mut room = Room::take(alloc)?;
    match read_message(alloc, &mut input, &mut room) {
        Ok(Some(request)) => Ok(if request.close { "close" } else { "open" }),
        _ => Ok("none"),
    }
}

#[test]
fn a_connection_header_closes(rt: HostRuntime) -> Result<(), Fail> {
    let alloc = rt.alloc();
    for line in CLOSE.lines() {
        let (expected, headers) = line.split_once(':').ok_or("a row")?;
        let told = connection(alloc, with_headers(alloc, headers)?)?;
        assert_eq!(rt; told, expected, "{headers}");
    }
    Ok(())
}

// Two messages, one behind the other.
const TWO: &[u8] = b"GET /organizations HTTP/1.1\r\n\r\nGET /organizations/acme HTTP/1.1\r\n\r\n";

// Whether a message was read.
fn is_read(alloc: Global, input: &mut MemSource, room: &mut Room) -> bool {
    matches!(read_message(alloc, input, room), Ok(Some(_)))
}

#[test]
fn a_room_tells_whether_it_holds_the_next_message(rt: HostRuntime) -> Result<(), Fail> {
    let alloc = rt.alloc();
    let mut input = MemSource::new(TWO.to_vec(alloc)?, 1000, Vec::new(alloc));
    let mut room = Room::take(alloc)?;
    assert!(rt; !room.holds_message());
    assert!(rt; is_read(alloc, &mut input, &mut room));
    assert!(rt; room.holds_message());
    assert!(rt; is_read(alloc, &mut input, &mut room));
    assert!(rt; !room.holds_message());
    assert!(rt; !is_read(alloc, &mut input, &mut room));
    Ok(())
}

const CREATED: &[u8] =
    b"HTTP/1.1 201 Created\r\nContent-Type: application/json\r\nContent-Length: 29\r\n\r\n{\"uri\":\"/organizations/acme\"}";

#[test]
fn a_reply_has_its_status_line_two_headers_and_its_body(rt: HostRuntime) -> Result<(), Fail> {
    let alloc = rt.alloc();
    let reply = Reply {
        status: 201,
        octets: false,
        body: Bytes::constant(b"{\"uri\":\"/organizations/acme\"}"),
    };
    let mut output = MemSink::new(alloc, Vec::new(alloc), 200)?;
    assert!(rt; write_reply(&mut output, &reply).is_ok());
    assert_eq!(rt; output.bytes(), CREATED);
    assert_eq!(rt; reply_length(&reply), CREATED.len());
    let mut buffered = MemSink::new(alloc, Vec::new(alloc), 200)?;
    let mut buffer = Buffered::take(alloc, 100)?;
    assert!(rt; buffer_reply(&mut buffer, &mut buffered, &reply).is_ok());
    assert!(rt; buffer.empty(&mut buffered).is_ok());
    assert_eq!(rt; buffered.bytes(), CREATED);
    Ok(())
}

const STATUSES: [u16; 15] = [
    200, 201, 400, 401, 403, 404, 405, 406, 409, 412, 413, 500, 501, 503, 299,
];

// Their status lines, in the same order.
const STATUS_LINES: &str = "200 OK\n\
    201 Created\n\
    400 Bad Request\n\
    401 Unauthorized\n\
    403 Forbidden\n\
    404 Not Found\n\
    405 Method Not Allowed\n\
    406 Not Acceptable\n\
    409 Conflict\n\
    412 Precondition Failed\n\
    413 Payload Too Large\n\
    500 Internal Server Error\n\
    501 Not Implemented\n\
    503 Service Unavailable\n\
    299 ";

fn text_of(alloc: Global, status: u16) -> Result<Vec<u8>, Fail> {
    let reply = Reply {
        status,
        octets: true,
        body: Bytes::constant(b"x"),
    };
    let mut output = MemSink::new(alloc, Vec::new(alloc), 200)?;
    write_reply(&mut output, &reply).ok().ok_or("a reply")?;
    Ok(output.bytes().to_vec(alloc)?)
}

#[test]
fn each_status_has_its_phrase(rt: HostRuntime) -> Result<(), Fail> {
    let alloc = rt.alloc();
    for (status, line) in STATUSES.iter().zip(STATUS_LINES.lines()) {
        let told = text_of(alloc, *status)?;
        let expected = format!(in alloc;
            "HTTP/1.1 {line}\r\nContent-Type: application/octet-stream\r\nContent-Length: 1\r\n\r\nx"
        )?;
        assert_eq!(rt; told.as_slice(), expected.as_bytes(), "{status}");
    }
    Ok(())
}
