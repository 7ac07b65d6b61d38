//! The pairs of all objects of a site, as postings linked by index, and the objects that a query finds.
#![tactic(auto)]

mod arena;
mod bounds;
mod fields;
mod found;
mod hashed_numbers;
mod index;
mod key;
mod merge;
mod names;
mod numbered_texts;
mod places;
mod posting;
mod postings;
mod scope;
mod seek;
mod terms;
mod words;

pub use index::Index;
pub use scope::{Scope, ScopeAt};
