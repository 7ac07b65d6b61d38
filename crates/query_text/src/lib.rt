//! Queries of a search: what a text spells, and where it stops to spell any.
#![tactic(auto)]

mod fault;
mod frames;
mod laws;
mod machine;
mod parts;
mod query;
mod read;
mod signs;
mod term;

pub use fault::QueryFault;
pub use laws::one_query;
pub use query::{AllOf, Item, Query, What};
pub use read::read_query;
pub use term::{Range, Sign, Term, Wanted};
