//! What is outside: where bytes come from and go, and files by their names, with a count of each refusal.
#![tactic(auto)]

mod buffered;
mod disk;
mod disk_fault;
mod failed;
mod failures;
mod file_disk;
mod listing;
mod memory_disk;
mod memory_sink;
mod memory_source;
mod sink;
mod source;
mod standard;
mod walk;

pub use buffered::Buffered;
pub use disk::Disk;
pub use disk_fault::DiskFault;
pub use failed::Failed;
pub use failures::Failures;
pub use file_disk::FileDisk;
pub use memory_disk::MemDisk;
pub use memory_sink::MemSink;
pub use memory_source::{MemSource, NeverFailingSource};
pub use sink::Sink;
pub use source::Source;
pub use standard::{Reading, Writing};
