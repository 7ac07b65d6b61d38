//! Tests of what rows say.
#![tactic(auto)]

#[cfg(test)]
mod row_reading_tests;
