//! Locks of policies: how they are read from a body and stored, their revision, and what makes one.
#![tactic(auto)]

mod depends;
mod digests;
mod fault;
mod fill;
mod identifiers;
mod laws;
mod lock;
mod make_fault;
mod making;
mod parts;
mod put;
mod reading;
mod source;
mod stored;

pub use digests::revision_id;
pub use fault::LockFault;
pub use identifiers::{Identified, Identifiers};
pub use laws::{locks_read_back, revisions_are_names};
pub use lock::{CookbookLock, CookbookLocks, Lock};
pub use make_fault::MakeFault;
pub use making::make_lock;
pub use reading::{read_lock, read_lock_of};
pub use source::{PolicySource, read_source};
