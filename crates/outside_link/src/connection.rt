//! The link over TCP.

ghost use Rattle.std.specs.Prelude.{◌≡◌, ◌≤◌, [], None, IfOk, IfSome, OnOk, length, refl};
ghost use Rattle.std.specs.Io.{ReadsAtMost};
ghost use Rattle.outside_core.specs.Failed.{HasCause};

use crate::Link;
use outside_core::{Failed, Sink, Source};
use std::io::{ErrorKind, Read, Write};
use std::marker::Model;
use std::net::{Net, OpenStream, Shutdown, TcpStream, ToSocketAddrs};
use std::time::Duration;

/// How long connecting may take, in milliseconds: 10 seconds for all addresses of a host together.
const CONNECTING: u64 = 10_000;

/// How long one read or one write may wait, in seconds.
const WAITING: u64 = 300;

/// A link over a connection of the network. It tells no bytes, and counts each refusal.
///
/// An interrupted call is tried again, and a write that takes nothing of a piece is a refusal.
/// Contracts see it as its count of faults.
#[derive(Drop)]
pub struct Connection<S> {
    stream: S,
    faults: u64,
}

impl<S> Model for Connection<S> {
    ghost use Rattle.std.specs.Prelude.{ℕ};

    ghost Value = { ℕ };

    ghost view = { λ c. c.faults };
}

impl<S> Connection<S> {
    /// A link over this stream, which is connected, with so many faults before.
    pub fn new(stream: S, faults: u64) -> Self
        ensures { result ≡ faults }
    {
        Connection { stream, faults }
    }

    /// How often it has failed, with the faults before.
    pub fn faults(&self) -> u64
        ensures { result ≡ self.now }
    {
        self.faults
    }
}

/// Connects to a port of a host, by its name or address, with so many faults before.
///
/// Connecting ends within 10 seconds, which the addresses of the host share; how long it takes to
/// look these up is the system's. A read or a write that then waits for 300 seconds is refused.
/// [`Failed`] is a host without an address, one that no address of answers, or a connection to which
/// these times can't be given; it is counted in `faults`, and the link counts on from there.
pub fn connect<R: Net>(
    net: &R,
    host: &str,
    port: u16,
    faults: &mut u64,
) -> Result<Connection<R::Stream>, Failed>
    ensures from { IfOk result (λ link. link ≡ faults.new) }
    ensures unfailed { OnOk result (faults.new ≡ faults.old) }
    ensures cause { HasCause faults.old faults.new result }
{
    match open(net, host, port) {
        Some(stream) => Ok(Connection::new(stream, *faults)),
        None => {
            *faults = faults.saturating_add(1);
            Err(Failed)
        }
    }
}

// A stream to the first address of the host that answers in its share of the time.
fn open<R: Net>(net: &R, host: &str, port: u16) -> Option<R::Stream> {
    let Ok(addresses) = (host, port).to_socket_addrs(net) else {
        return None;
    };
    let share = Duration::from_millis(CONNECTING / addresses.len().max(1) as u64);
    for address in addresses {
        if let Ok(stream) = TcpStream::connect_timeout(net, &address, share) {
            return patient(stream);
        }
    }
    None
}

// The stream, whose calls wait no longer than they may.
fn patient<S: OpenStream + Drop>(stream: S) -> Option<S> {
    let longest = Some(Duration::from_secs(WAITING));
    if stream.set_read_timeout(longest).is_ok() && stream.set_write_timeout(longest).is_ok() {
        Some(stream)
    } else {
        None
    }
}

impl<S: Read + Write + OpenStream> Source for Connection<S> {
    ghost left = { λ _. None };

    ghost faults = { λ s. s };

    fn read(&mut self, into: &mut [u8]) -> Result<usize, Failed> {
        match read_once(&mut self.stream, into) {
            Some(count) => Ok(count),
            None => {
                self.faults = self.faults.saturating_add(1);
                Err(Failed)
            }
        }
    }
}

// How many bytes a read gave, or nothing where it was refused. An interrupted one is tried again.
fn read_once<S: Read>(stream: &mut S, into: &mut [u8]) -> Option<usize>
    ensures { IfSome result (λ count. count ≤ length into.new) }
{
    for _ in 0..u64::MAX {
        match stream.read(into) {
            Ok(count) => return Some(count),
            Err(error) => {
                if error.kind() != ErrorKind::Interrupted {
                    return None;
                }
            }
        }
    }
    None
}

impl<S: Read + Write + OpenStream> Sink for Connection<S> {
    ghost gained = { λ _. None };

    ghost faults = { λ s. s };

    fn write(&mut self, piece: &[u8]) -> Result<(), Failed> {
        if self.stream.write_all(piece).is_ok() {
            return Ok(());
        }
        self.faults = self.faults.saturating_add(1);
        Err(Failed)
    }
}

impl<S: Read + Write + OpenStream> Link for Connection<S> {
    ghost input = { λ _. None };

    fn shut(&mut self) {
        let _ = self.stream.shutdown(Shutdown::Both);
    }

    ghost rest = { λ link. ([], refl) };

    ghost one_count = { λ link. refl };

    ghost reads_gained = { λ old new kept. refl };

    ghost reads_input = { λ old new kept. refl };

    ghost writes_left = { λ old new kept. refl };

    ghost writes_input = { λ old new kept. refl };
}
