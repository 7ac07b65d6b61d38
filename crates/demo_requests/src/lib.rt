//! The requests of a demo, drawn from its size one by one, and the counts of what their replies come to.
#![tactic(auto)]

mod bodies;
mod counts;
mod demo;
mod draws;
mod names;
mod requests;
mod turns;

pub use counts::Counts;
pub use demo::Demo;
