//! Tests of talks with a server, errand by errand.
#![tactic(auto)]

#[cfg(test)]
mod errands;
#[cfg(test)]
mod faults_tests;
#[cfg(test)]
mod knife_core_tests;
