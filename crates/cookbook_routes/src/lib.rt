//! The rules of cookbooks, sandboxes and files: how a client brings its cookbooks, and who reads them.
#![tactic(auto)]

mod cookbooks;
mod file_routes;
mod laws;
mod listing_routes;
mod operations;
mod sandbox_routes;
mod solving_routes;
mod trees;
mod universe_routes;
mod version_routes;

pub use cookbooks::Cookbooks;
pub use laws::cookbooks_are_lawful;
pub use operations::{CookbookOperation, Count, Wanted};
