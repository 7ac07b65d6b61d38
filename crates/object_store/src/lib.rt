//! The objects of one organisation, by their kinds and names.
#![tactic(auto)]

mod bases;
mod item;
mod items;
mod key;
mod late;
mod listing;
mod lists;
mod near;
mod objects;
mod shelves;
mod shelving;

pub use key::Key;
pub use objects::Objects;
