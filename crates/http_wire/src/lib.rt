//! HTTP messages: bytes to requests, and replies to bytes (RFC 9112).
#![tactic(auto)]

mod bodies;
mod faults;
mod fields;
mod frames;
mod heads;
mod laws;
mod replies;
mod requests;
mod room;
mod window;

pub use faults::WireFault;
pub use fields::{read_length, value_named};
pub use heads::MOST_HEADERS;
pub use laws::{one_split, whole_stream};
pub use replies::{buffer_reply, reply_length, write_reply};
pub use requests::read_message;
pub use room::Room;
pub use window::Window;
