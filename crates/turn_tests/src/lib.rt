//! Tests of turns: an account that threads pay into, each in its turn, with a journal of all deposits.
#![tactic(auto)]

mod accounts;
mod deposits;
mod threads;
#[cfg(test)]
mod turn_book_tests;

pub use accounts::{Account, Amount, Deposit};
pub use deposits::{Asked, deposit};
pub use threads::deposit_by_two;
