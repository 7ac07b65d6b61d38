//! A value that threads take in turn, and the one history of what they did with it.
#![tactic(auto)]

mod book;
mod callers;
mod histories;
mod rule;
mod views;

pub use book::TurnBook;
pub use callers::{Out, Turns};
pub use histories::{Picks, Stands};
