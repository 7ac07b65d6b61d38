//! Single acts of resources over hosts: what one action of one resource is to do, and how it is done.
#![tactic(auto)]

mod acts;
mod cause;
mod changes;
mod laws;
mod needs;
mod prefixes;
mod scanning;
mod steps;
mod verdict;
mod works;

pub use acts::perform;
pub use cause::Cause;
pub use laws::{
    acts_are_determined, agreeing_wants_suit, updates_keep_what_suits,
    wants_that_agree_by_path_suit, wants_that_agree_by_table_agree,
};
pub use needs::needs_of;
pub use verdict::Verdict;
