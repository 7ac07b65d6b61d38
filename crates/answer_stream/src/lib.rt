//! Streams of messages, answered one after another by whatever answers a request.
#![tactic(auto)]

mod answering;
mod ends;
mod memory;
mod turns;

pub use answering::Answering;
pub use ends::End;
pub use memory::take_memory;
pub use turns::answer_all;
