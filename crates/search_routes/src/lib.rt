//! The rules of searches: which objects a caller finds, and what is shown of them.
#![tactic(auto)]

mod asking;
mod finding;
mod laws;
mod listing;
mod operations;
mod rows;
mod searches;

pub use laws::searches_are_lawful;
pub use operations::{Asked, Search, SearchOperation};
pub use searches::Searches;
