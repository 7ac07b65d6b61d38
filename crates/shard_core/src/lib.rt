//! The organisations of a site, kept in shards: their states, their files and the index of their objects; one request
//! served over them, and the listing of who is there.
#![tactic(auto)]

mod indexed;
mod listing;
mod names;
mod numbers;
mod shards;
mod site;

pub use indexed::Indexed;
pub use shards::Shard;
pub use site::serve;
