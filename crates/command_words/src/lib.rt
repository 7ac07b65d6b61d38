//! The words of a command line, read as one of the program's commands.
#![tactic(auto)]

mod command;
mod given;
mod knife;
mod numbers;
mod options;
mod servers;
mod words;

pub use command::{Command, KnifeWords};
pub use words::command_of;
