//! What finds the objects that a query matches: the indexes and the objects of each, the trait of finders, and the finder
//! that looks at each object.
#![tactic(auto)]

mod changes;
mod finder;
mod found;
mod indexes;
mod laws;
mod scan;
mod scopes;

pub use changes::{Change, Changes, make_changes, reserve_for};
pub use finder::Finder;
pub use found::find;
pub use indexes::{Index, entry_of, index_of, indexed, look_up, names_of};
pub use laws::{found_are_those_that_match, meeting_is_told};
pub use scan::ScanFinder;
pub use scopes::Scope;
