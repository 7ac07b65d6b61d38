//! What a note names.

use doc_tree::Text;
use peer_wire::Ask;

/// What the note of a run names.
#[derive(Drop)]
pub enum Named {
    /// Nothing.
    Nothing,
    /// A file, as the words spell its name.
    File(Text),
    /// A request to a server.
    Request(Ask),
}
