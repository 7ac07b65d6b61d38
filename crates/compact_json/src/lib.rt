//! JSON documents kept as their compact texts: copied as bytes, and read where a part is wanted.
#![tactic(auto)]

mod compact;
mod find;
mod next;
mod read;
mod whole;

pub use compact::CompactJson;
