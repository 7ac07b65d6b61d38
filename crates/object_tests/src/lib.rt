//! Tests of groups, access lists and objects.
#![tactic(auto)]

#[cfg(test)]
mod access_lists_tests;
#[cfg(test)]
mod belonging_tests;
#[cfg(test)]
mod listing_tests;
#[cfg(test)]
mod object_forms_tests;
#[cfg(test)]
mod object_store_tests;
#[cfg(test)]
mod permission_tests;
#[cfg(test)]
mod stranger_tests;
#[cfg(test)]
mod text_set_tests;
