//! The rules of organisations, of the plain collections of objects, and of data bags and their items.
#![tactic(auto)]

mod data_bags;
mod laws;
mod objects;
mod operations;
mod organisations;

pub use data_bags::DataBags;
pub use laws::{default_environment_is_read, groups_are_lawful, new_organisations_meet_conditions};
pub use objects::PlainObjects;
pub use operations::{DataOperation, ObjectsOperation, OrganisationOperation};
pub use organisations::Organisations;
