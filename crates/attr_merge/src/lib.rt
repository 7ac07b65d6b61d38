//! The merge of attributes: of layers, each value and the layers that it comes from, and the lines that explain it.
#![tactic(auto)]

mod children;
mod elements;
mod explaining;
mod families;
mod fault;
mod laws;
mod layers;
mod lines;
mod merged;
mod merging;
mod nodes;
mod parts;
mod source_entries;
mod sources;

pub use explaining::explain;
pub use fault::SourcesFault;
pub use laws::leaves_show_what_is_below;
pub use layers::{Layer, are_layers};
pub use merged::{Leaves, Merged};
pub use merging::merge;
pub use sources::read_sources;
