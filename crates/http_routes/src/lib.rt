//! From the parts of an HTTP message to the request that they spell.
#![tactic(auto)]

mod bodies;
mod connections;
mod headers;
mod parameters;
mod places;
mod requests;
mod router;
mod targets;
mod verbs;

pub use bodies::{BodyForm, body_of};
pub use connections::lists_close;
pub use headers::{HeaderValue, api_of, caller_of};
pub use parameters::parameters_of;
pub use requests::Head;
pub use router::Routes;
pub use targets::segments_of;
pub use verbs::verb_of;
