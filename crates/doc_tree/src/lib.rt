//! JSON documents as trees, with the texts, names, bytes and lists of which every layer above is made.
#![tactic(auto)]

mod bytes;
mod copy;
mod fields;
mod kind;
mod laws;
mod listed;
mod name;
mod no_memory;
mod number;
mod read;
mod same;
mod steps;
mod text;
mod tree;
mod trees;
mod write;

pub use bytes::Bytes;
pub use kind::Kind;
pub use laws::{one_text, text_reads_back};
pub use listed::{Listed, Names, Texts};
pub use name::{Name, is_name, is_organisation_name};
pub use no_memory::NoMemory;
pub use number::Number;
pub use read::{ReadFault, read_json};
pub use steps::Steps;
pub use text::Text;
pub use tree::{Field, Fields, Tree, Trees};
pub use write::json_text;
