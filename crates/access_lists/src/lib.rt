//! Access lists: who may do what to an object.
#![tactic(auto)]

mod acl;
mod creator;
mod fault;
mod laws;
mod lent;
mod perm;
mod permission;
mod reading;
mod starting;
mod strangers;
mod writing;

pub use acl::{Acl, Entry};
pub use fault::AclFault;
pub use laws::{access_lists_read_back, permission_is_decided};
pub use lent::AclAt;
pub use perm::Perm;
pub use permission::permitted;
pub use reading::{read_acl, whole_acl};
pub use starting::{Container, starting_list};
pub use strangers::{Stranger, first_stranger};
pub use writing::acl_tree;
