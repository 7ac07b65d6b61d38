//! The client's end of HTTP: requests to bytes, and bytes to replies (RFC 9112).
#![tactic(auto)]

mod asks;
mod bodies;
mod faults;
mod fields;
mod heads;
mod replies;
mod texts;

pub use asks::{Ask, Verb, Whom};
pub use faults::{ReplyFault, WriteFault};
pub use http_wire::Window as Room;
pub use org_requests::Reply;
pub use replies::read_reply;
pub use texts::write_request;
