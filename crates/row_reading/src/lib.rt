//! The readers of rows: what a row's key says that it is of, and what its body says, read into what a state keeps.
#![tactic(auto)]

mod assigned;
mod bodies;
mod checksums;
mod contents;
mod counts;
mod editions;
mod files;
mod group;
mod kinds;
mod list;
mod names;
mod objects;
mod place;
mod revisions;
mod row;
mod said;
mod tokens;

pub use row::read_row;
pub use said::Said;
