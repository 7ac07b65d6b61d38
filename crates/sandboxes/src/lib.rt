//! The files of organisations, each named by its MD5, and the sandboxes by which they come.
#![tactic(auto)]

mod checksum;
mod fault;
mod files;
mod hashed;
mod id;
mod maps;
mod part;
mod stored;
mod sums;

pub use checksum::{Checksum, read_checksum};
pub use fault::{Refused, SandFault};
pub use files::Files;
pub use hashed::Hashed;
pub use id::sandbox_id;
pub use stored::Stored;
pub use sums::Sums;
