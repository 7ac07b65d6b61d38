//! Tests of attributes, recipes, hosts and runs.
#![tactic(auto)]

#[cfg(test)]
mod attr_merge_tests;
#[cfg(test)]
mod converge_tests;
#[cfg(test)]
mod host_acts_tests;
#[cfg(test)]
mod host_tree_tests;
#[cfg(test)]
mod notify_queue_tests;
#[cfg(test)]
mod resource_core_tests;
#[cfg(test)]
mod sources_tests;
