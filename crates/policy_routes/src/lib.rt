//! The rules of artifacts, policies and policy groups: how a site that uses Policyfiles brings its locks, and which lock a
//! group assigns to each policy.
#![tactic(auto)]

mod artifact_routes;
mod group_routes;
mod laws;
mod lock_bodies;
mod moving;
mod operations;
mod policies;
mod policy_listings;
mod revision_routes;
mod trees;

pub use laws::policies_are_lawful;
pub use operations::PolicyOperation;
pub use policies::Policies;
