//! What stands at a path.
use crate::modes::Mode;
use doc_tree::Text;

/// What stands at a path of a host that is kept in memory.
#[derive(Drop)]
pub enum Entry {
    /// A file.
    File {
        /// All that is in it.
        content: Text,
        /// Its mode.
        mode: Mode,
    },
    /// A directory.
    Directory {
        /// Its mode.
        mode: Mode,
    },
    /// A link.
    Link {
        /// What it says, which needn't be a path.
        to: Text,
    },
}
