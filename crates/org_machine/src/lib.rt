//! One organisation of a Chef Infra Server: the order in which a request is refused or done, and what it
//! means that each organisation of a site is answered as if it were alone.
#![tactic(auto)]

mod finding;
mod laws;
mod order;
mod outside;
mod serving;
mod steps;

pub use laws::{
    alone_is_permitted_exactly, refusals_change_nothing, steps_are_served, steps_keep_conditions,
    steps_permit_exactly, the_same_in_every_state, two_worlds,
};
pub use object_finder::{Finder, ScanFinder};
pub use org_core::{Move, Moves, OrgState};
pub use outside::{is_listing, listing, serve_outside};
pub use serving::{Ready, prepare, serve, settle};
