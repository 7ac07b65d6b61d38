//! What a client asks of a server, and whom it is.

ghost use Rattle.std.specs.Prelude.{◌≡◌};
ghost use Rattle.peer_wire.specs.Asks as spec;

use doc_tree::{Bytes, Text};

/// The method of a request (RFC 9110, section 9).
#[derive(Clone, Copy, Debug, PartialEq, Eq)]
pub enum Verb {
    Get,
    Post,
    Put,
    Delete,
}

impl Verb {
    /// The method as it is written.
    pub fn as_str(self) -> &'static str
        ensures { result.now ≡ spec.method self }
    {
        match self {
            Verb::Get => "GET",
            Verb::Post => "POST",
            Verb::Put => "PUT",
            Verb::Delete => "DELETE",
        }
    }
}

/// Whom the server takes a client for, and where the server is.
#[derive(Drop)]
pub struct Whom {
    /// The organisation that the client works in.
    pub org: Text,
    /// The user or client as which it asks.
    pub caller: Text,
    /// The server's host, as its URL has it.
    pub host: Text,
    /// The server's port.
    pub port: u16,
}

/// What is asked of the server.
#[derive(Drop)]
pub struct Ask {
    /// The method.
    pub verb: Verb,
    /// The path, and the parameters behind it, as they are written.
    pub target: Text,
    /// The body.
    pub body: Bytes,
}
