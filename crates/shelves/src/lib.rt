//! Values by their keys in key order, and by a name and then a key, with room kept ahead so that changes take no
//! memory.
#![tactic(auto)]

mod duplicate;
mod forget;
mod places;
mod shelves;
mod sorted_map;

pub use duplicate::Duplicate;
pub use forget::Forget;
pub use shelves::Shelves;
pub use sorted_map::SortedMap;
