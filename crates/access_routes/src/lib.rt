//! The rules of groups, users, containers and access lists: who may do what, and who says so.
#![tactic(auto)]

mod access;
mod containers;
mod group_routes;
mod laws;
mod lists;
mod operations;
mod trees;
mod users;

pub use access::Access;
pub use laws::access_is_lawful;
pub use operations::AccessOperation;
