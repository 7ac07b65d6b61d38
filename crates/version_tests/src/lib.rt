//! Tests of versions and run lists.
#![tactic(auto)]

#[cfg(test)]
mod dep_solver_tests;
#[cfg(test)]
mod run_lists_expansion_tests;
#[cfg(test)]
mod run_lists_items_tests;
#[cfg(test)]
mod run_lists_reading_tests;
#[cfg(test)]
mod run_lists_roots_tests;
#[cfg(test)]
mod shelves_tests;
#[cfg(test)]
mod version_rules_tests;
