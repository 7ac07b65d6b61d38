//! Tests of cookbooks, policies and their files.
#![tactic(auto)]

#[cfg(test)]
mod cookbook_meta_tests;
#[cfg(test)]
mod editions_tests;
#[cfg(test)]
mod org_shelves_tests;
#[cfg(test)]
mod policy_locks_rows;
#[cfg(test)]
mod policy_locks_tests;
#[cfg(test)]
mod sandboxes_tests;
