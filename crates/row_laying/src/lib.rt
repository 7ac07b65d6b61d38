//! An organisation's state built again of what its rows say, kind by kind.
#![tactic(auto)]

mod laid;
mod laying;
mod loading;
mod shelving;

pub use laid::Laid;
pub use loading::lay_all;
