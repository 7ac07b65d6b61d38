//! YAML texts, in a subset of version 1.2.2 with its core schema, as trees and back.
#![tactic(auto)]

mod blocks;
mod document;
mod falling;
mod fault;
mod flow;
mod laws;
mod literal;
mod mark;
mod pairs;
mod quoted;
mod read;
mod reader;
mod said;
mod scalar;
mod signs;
mod stack;
mod texts;
mod token;
mod write;

pub use fault::{FaultKind, YamlFault};
pub use laws::{one_tree, written_spells};
pub use read::read_yaml;
pub use write::yaml_text;
