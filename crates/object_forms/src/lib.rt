//! The bodies of objects: what is stored of each, or the first field that hasn't its form.
#![tactic(auto)]

mod fault;
mod fields;
mod forms;
mod group_bodies;
mod laws;
mod objects;
mod rows;
mod stored_lists;
mod tables;

pub use fault::FormFault;
pub use laws::{stored_objects_are_named, stored_objects_read_back};
pub use objects::read_object;
