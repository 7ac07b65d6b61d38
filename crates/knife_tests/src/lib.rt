//! Tests of the command `knife`.
#![tactic(auto)]

#[cfg(test)]
mod command_line_tests;
#[cfg(test)]
mod knife_errands_tests;
