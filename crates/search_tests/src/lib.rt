//! Tests of search.
#![tactic(auto)]

#[cfg(test)]
mod object_finder_tests;
#[cfg(test)]
mod query_text_tests;
#[cfg(test)]
mod row_tests;
#[cfg(test)]
mod search_index_tests;
#[cfg(test)]
mod search_query_tests;
