// Links in memory with their planned faults, and those over the network.
use crate::talking::{REPLY, add, asks, next_reply};
use doc_tree::NoMemory;
use outside_core::{Sink, Source};
use outside_link::{Connection, Link, MemLink, connect};
use peer_wire::{Room, Verb};
use std::alloc::Global;
use std::io;
use std::io::{ErrorKind, Read, Write};
use std::net::{Net, OpenListener, OpenStream, TcpListener};
use std::test::Fail;

// A request and two tries to read its reply, of which a read gives 40 bytes at most. The call with
// this number fails; the link has this much room.
fn talk(alloc: Global, failing: u64, room: usize, lines: &mut String) -> Result<(), NoMemory> {
    let mut calls = Vec::new(alloc);
    calls.push(failing)?;
    let mut link = MemLink::new(alloc, REPLY.to_vec(alloc)?, 40, calls, room)?;
    let mut held = Room::take(alloc)?;
    link.shut();
    add(lines, asks(alloc, &mut link, Verb::Get, b"")?)?;
    add(lines, &next_reply(alloc, &mut link, &mut held)?)?;
    add(lines, &next_reply(alloc, &mut link, &mut held)?)?;
    let written = String::from_utf8_lossy(alloc, link.written())?;
    add(lines, written.split(' ').next().unwrap_or(""))
}

// The calls are a write and two reads; shutting is none.
const TALKS: &str = "write fault\n200 json {}\nno reply\n\n\
    written\nread fault\n200 json {}\nGET\n\
    written\nread fault\n200 json {}\nGET\n\
    written\n200 json {}\nread fault\nGET\n\
    written\n200 json {}\nno reply\nGET\n\
    write fault\n200 json {}\nno reply\nGE\n";

#[test]
fn a_link_fails_at_the_planned_calls_and_beyond_its_room(rt: HostRuntime) -> Result<(), Fail> {
    let alloc = rt.alloc();
    let mut told = String::new(alloc);
    for failing in 1..=5 {
        talk(alloc, failing, 200, &mut told)?;
    }
    talk(alloc, 9, 2, &mut told)?;
    assert_eq!(rt; told.as_str(), TALKS);
    Ok(())
}

// A stream of the network whose first call is interrupted, and whose others fail or move nothing.
#[derive(Drop)]
struct Unsteady {
    calls: u32,
    fails: bool,
}

impl Unsteady {
    fn call(&mut self) -> io::Result<()> {
        self.calls = self.calls.saturating_add(1);
        if self.calls == 1 {
            return Err(io::Error::from(ErrorKind::Interrupted));
        }
        if self.fails {
            return Err(io::Error::from(ErrorKind::TimedOut));
        }
        Ok(())
    }
}

impl Read for Unsteady {
    fn read(&mut self, _into: &mut [u8]) -> io::Result<usize> {
        self.call()?;
        Ok(0)
    }
}

impl Write for Unsteady {
    fn write(&mut self, _piece: &[u8]) -> io::Result<usize> {
        self.call()?;
        Ok(0)
    }

    fn flush(&mut self) -> io::Result<()> {
        Ok(())
    }
}

impl OpenStream for Unsteady {}

// How often a link over such a stream has failed, after a read and a write that moved nothing.
fn counts(fails: bool, faults: u64) -> u64 {
    let mut link = Connection::new(Unsteady { calls: 0, fails }, faults);
    let mut into = [0; 4];
    let _ = link.read(&mut into);
    let _ = link.write(b"ab");
    link.shut();
    link.faults()
}

#[test]
fn a_connection_counts_what_is_refused(rt: HostRuntime) {
    assert_eq!(rt; counts(true, 5), 7);
    assert_eq!(rt; counts(false, 5), 6);
    assert_eq!(rt; counts(true, u64::MAX), u64::MAX);
}

// A request and its reply over a connection to a peer of this machine, and a port at which none is.
fn over_tcp<N: Net>(alloc: Global, net: &N, lines: &mut String) -> Result<u64, Fail> {
    let listener = TcpListener::bind(net, "127.0.0.1:0")?;
    let port = listener.local_addr()?.port();
    let mut faults = 3;
    let Ok(mut link) = connect(net, "127.0.0.1", port, &mut faults) else {
        return Ok(faults);
    };
    let (mut peer, _) = listener.accept()?;
    add(lines, asks(alloc, &mut link, Verb::Delete, b"")?)?;
    let mut first = [0; 6];
    peer.read_exact(&mut first)?;
    add(lines, &String::from_utf8_lossy(alloc, &first)?)?;
    peer.write_all(REPLY)?;
    let mut room = Room::take(alloc)?;
    add(lines, &next_reply(alloc, &mut link, &mut room)?)?;
    link.shut();
    drop(peer);
    drop(listener);
    let refused = connect(net, "127.0.0.1", port, &mut faults).is_err();
    add(lines, if refused { "refused" } else { "connected" })?;
    Ok(faults)
}

#[test]
fn a_connection_is_talked_over(rt: HostRuntime) -> Result<(), Fail> {
    let alloc = rt.alloc();
    let mut told = String::new(alloc);
    let faults = over_tcp(alloc, &rt, &mut told)?;
    assert_eq!(rt; told.as_str(), "written\nDELETE\n200 json {}\nrefused\n");
    assert_eq!(rt; faults, 4);
    Ok(())
}
