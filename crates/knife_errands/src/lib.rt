//! The errands of the command `knife`: what words spell them, the requests that they make, and what is printed of the
//! replies.
#![tactic(auto)]

mod bodies;
mod errands;
mod faults;
mod files;
mod kinds;
mod laws;
mod node_run_lists;
mod printing;
mod requests;
mod targets;
mod words;

pub use errands::{Errand, FileKind, Kind, Listing, RunListChange, Step, Thing};
pub use faults::{BodyFault, FileFault, KnifeFault};
pub use files::{Sent, sent_of};
pub use laws::targets_are_clean;
pub use node_run_lists::{changed_request, node_request, printed_items};
pub use printing::printed;
pub use requests::request_of;
pub use words::read_words;
