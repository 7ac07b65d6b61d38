//! Tests of routes, of requests and those of a demo, and of an organisation as a whole.
#![tactic(auto)]

#[cfg(test)]
mod demo_requests_tests;
#[cfg(test)]
mod head_tests;
#[cfg(test)]
mod http_routes_tests;
#[cfg(test)]
mod http_wire_tests;
#[cfg(test)]
mod org_machine_tests;
#[cfg(test)]
mod org_requests_tests;
#[cfg(test)]
mod router_tests;
