//! Keepers over database files, one file a shard, and what makes them.
#![tactic(auto)]

mod files;
mod kept_file;
mod shard_keeper;
mod shard_keepers;
mod sqlite_keeper;
mod table;

pub use shard_keeper::ShardKeeper;
pub use shard_keepers::ShardKeepers;
pub use sqlite_keeper::SqliteKeeper;
