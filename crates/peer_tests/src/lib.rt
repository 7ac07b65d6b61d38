//! Tests of links, and of the client's end of HTTP.
#![tactic(auto)]

#[cfg(test)]
mod outside_link_tests;
#[cfg(test)]
mod peer_wire_tests;
#[cfg(test)]
mod talking;
