//! What a client says to a server, as a function of the replies that it has read so far.
#![tactic(auto)]

mod exchange;
mod halts;
mod link_ends;

pub use exchange::{Got, want, want_or};
pub use halts::Halt;
