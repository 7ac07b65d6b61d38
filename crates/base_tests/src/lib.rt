//! Tests of what every crate stands on, and of the words of the command line.
#![tactic(auto)]

#[cfg(test)]
mod command_words_tests;
#[cfg(test)]
mod compact_json_tests;
#[cfg(test)]
mod disk_tests;
#[cfg(test)]
mod doc_tree_tests;
#[cfg(test)]
mod keeper_tests;
#[cfg(test)]
mod ordered_keys_tests;
#[cfg(test)]
mod outside_core_tests;
#[cfg(test)]
mod yaml_subset_tests;
