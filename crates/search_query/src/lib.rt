//! The pairs by which an object is found, which objects a query finds, and what a search shows of them: rows, whole or
//! in part, and the page.
#![tactic(auto)]

mod fault;
mod flatten;
mod laws;
mod matching;
mod pages;
mod pair;
mod partial;
mod parts;
mod paths;
mod walk;

pub use fault::PartialFault;
pub use flatten::pairs;
pub use laws::rows_have_the_keys;
pub use matching::{is_wanted, matches};
pub use pages::{RowText, page_text, shown};
pub use pair::{Pair, Pairs};
pub use partial::Partial;
