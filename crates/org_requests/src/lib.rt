//! Requests apart from states: the table of routes, what a request says, what its head alone refuses, and
//! the replies and refusals that answer it.
#![tactic(auto)]

mod collections;
mod documents;
mod heads;
mod left_out;
mod parameters;
mod refusals;
mod replies;
mod requests;
pub mod routes;
mod table;
mod verbs;

pub use collections::Collection;
pub use documents::{absent, document_in};
pub use heads::head_refusal;
pub use left_out::is_left_out;
pub use parameters::{asked_for, number_in};
pub use refusals::{Refusal, Stop, out_of_memory};
pub use replies::{
    ORGANISATIONS, Reply, created, given, made, made_or_shown, org_uri, shown, shown_key,
    shown_paths,
};
pub use requests::{BadBody, Body, Parameter, Parameters, Place, Request, is_operator};
pub use table::{ROUTES, Row, rows};
pub use verbs::Verb;
