//! Versions of cookbooks, and the constraints that a version meets or does not meet.
#![tactic(auto)]

mod constraints;
mod fault;
mod laws;
mod meeting;
mod needs;
mod versions;

pub use constraints::{Constraint, Sign, parse_constraint, read_constraint};
pub use fault::VersionFault;
pub use laws::{constraints_read_back, versions_fit, versions_read_back};
pub use meeting::meets;
pub use needs::{Need, Needs};
pub use versions::{Version, compare, parse_version, read_version};
