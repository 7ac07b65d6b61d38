//! What the command `knife` does: one errand, over a link to the server.
#![tactic(auto)]

mod files;
mod knife;
mod rows;
mod steps;

pub use knife::{KnifeEnd, knife_run};
