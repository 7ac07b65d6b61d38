//! Items under numbers that they keep, and in order, with room kept ahead so that changes take no memory.
#![tactic(auto)]

mod arranged;
mod keys;
mod nodes;
mod probes;
mod ranks;
mod sought;
mod tree;

pub use arranged::Arranged;
pub use keys::Ordered;
pub use probes::{Probe, Whole};
pub use sought::{Ranking, Sought};
