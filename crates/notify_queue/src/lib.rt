//! A queue of pairs of a resource and an action, in which each pair is queued once at most, linked by index.
#![tactic(auto)]

mod laws;
mod links;
mod pair;
mod queue;

pub use laws::one_more_first;
pub use pair::Pair;
pub use queue::Queue;
