//! Connections to a peer: links, in memory and over TCP.
#![tactic(auto)]

mod connection;
mod link;
mod memory_link;

pub use connection::{Connection, connect};
pub use link::Link;
pub use memory_link::MemLink;
