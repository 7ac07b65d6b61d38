//! What can be asked of searches: one operation for each path of the table of routes, with all that the path, the
//! parameters and the body say.

use doc_tree::Name;
use query_text::Query;
use search_query::Partial;

/// Which objects are looked for, and which of them are shown.
#[derive(Drop)]
pub struct Asked {
    /// What they have to meet.
    pub query: Query,
    /// From which of them on they are shown, counted from 0.
    pub start: u32,
    /// How many of them are shown at most.
    pub rows: u32,
}

/// A search of one index.
#[derive(Drop)]
pub struct Search {
    /// The word of the index: `node`, `role`, `environment`, `client`, or the name of a data bag.
    pub index: Name,
    /// Which objects are looked for, and which of them are shown.
    pub asked: Asked,
    /// The keys that are shown of each; `None` where the whole object is.
    pub partial: Option<Partial>,
}

/// What can be asked of searches.
#[derive(Drop)]
pub enum SearchOperation {
    /// To list the indexes.
    ListIndexes,
    /// To search one.
    Find(Search),
}
