//! Whose objects a search looks among: an organisation and one of its indexes.

use doc_tree::Text;

/// An organisation and one of its indexes, by their names.
#[derive(Drop)]
pub struct Scope {
    /// The organisation.
    pub org: Text,
    /// The word of the index: `node`, `role`, `environment`, `client`, or the name of a data bag.
    pub index: Text,
}
