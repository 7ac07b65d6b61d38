//! What a look at a path sees.
use crate::modes::Mode;
use doc_tree::{Bytes, Text};

/// What a look at a path sees. A link is seen itself, and not what it leads to.
#[derive(Drop)]
pub enum Seen {
    /// Nothing stands there.
    Absent,
    /// A file.
    FileThere {
        /// All that is in it.
        content: Bytes,
        /// Its mode.
        mode: Mode,
    },
    /// A directory.
    FolderThere {
        /// Its mode.
        mode: Mode,
        /// Whether nothing is below it.
        empty: bool,
    },
    /// A link.
    LinkThere {
        /// What it says, which needn't be a path.
        to: Text,
    },
}
