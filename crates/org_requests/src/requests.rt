//! A request, after it was read from a message and before anyone looked at a state.

ghost use Rattle.std.specs.Prelude.{◌≡◌};
ghost use Rattle.org_requests.specs.Documents as bodies;
ghost use Rattle.org_requests.specs.Requests as requests;

use crate::routes::Route;
use crate::verbs::Verb;
use doc_tree::{Listed, Text, Tree};
use sandboxes::Hashed;

/// Where a request goes.
#[derive(Drop)]
pub enum Place {
    /// A route of the organisation of this name.
    Of {
        /// The organisation's name as the request spells it. It may have no organisation's form:
        /// then no such organisation is there.
        org: Text,
        /// The route below it.
        route: Route,
    },
    /// `/organizations`, but for a POST whose body names a new organisation.
    Organisations,
    /// A path that the product leaves out.
    LeftOut,
    /// A path that the table of routes hasn't.
    NoRoute,
    /// A path of the table of routes, by a method that it hasn't: of the organisation that the path
    /// names, if it is of one.
    NoMethod {
        /// The organisation's name as the request spells it.
        org: Option<Text>,
    },
    /// The parts of the request found no memory. Such a request is of no organisation.
    NoMemory,
}

/// A parameter of a request's query, form-decoded.
#[derive(Drop)]
pub struct Parameter {
    /// Its name.
    pub name: Text,
    /// Its value; empty where there is none.
    pub value: Text,
}

/// Parameters, in the order of the query.
pub type Parameters = Listed<Parameter>;

/// Why no tree could be read from the bytes of a body. Where several hold, the first of these is told.
#[derive(Clone, Copy, Debug, PartialEq, Eq)]
pub enum BadBody {
    /// They aren't one JSON value in UTF-8 (RFC 8259).
    NotJson,
    /// They nest more than 100 deep.
    TooDeep,
    /// A number is no whole number that an `i64` or a `u64` holds.
    NotWhole,
}

/// The body of a request.
#[derive(Drop)]
pub enum Body {
    /// No body is looked at: there is none to look at with this method, or the head alone refuses the
    /// request.
    Empty,
    /// A tree that was read from JSON.
    Doc(Tree),
    /// Bytes that no tree could be read from, with the first fault.
    Bad(BadBody),
    /// The bytes of a file, with their checksum.
    Raw(Hashed),
    /// More than 4,194,304 bytes, which were dropped.
    TooLong,
}

impl Body {
    /// Whether there were more bytes than a body may have.
    pub fn is_too_long(&self) -> bool
        ensures { result ≡ bodies.is_too_long self.now }
    {
        matches!(self, Body::TooLong)
    }
}

/// One request.
#[derive(Drop)]
pub struct Request {
    /// The caller's name, by the one header `X-Ops-UserId`. `None` where the header is missing,
    /// empty, not UTF-8 or there twice.
    pub caller: Option<Text>,
    /// The version of the API, by the header `X-Ops-Server-API-Version`: 0, 1 or 2, and 0 where
    /// there is no such header. `None` where it has another value or is there twice.
    pub api: Option<u8>,
    /// What is asked.
    pub verb: Verb,
    /// Of what it is asked.
    pub place: Place,
    /// The parameters of the query. One that stands twice counts by its first.
    pub parameters: Parameters,
    /// What comes with it.
    pub body: Body,
    /// Whether the message says that its connection is to be closed: a `Connection` header has the
    /// option `close` (RFC 9112, section 9.6). It changes no reply.
    pub close: bool,
}

/// Whether the caller is the operator.
pub fn is_operator(caller: &Option<Text>) -> bool
    ensures { result ≡ requests.is_operator caller.now }
{
    match caller {
        None => false,
        Some(caller) => caller.as_str() == "pivotal",
    }
}
