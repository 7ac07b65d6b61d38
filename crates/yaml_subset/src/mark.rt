//! Marks: what a text says, line by line, with columns in place of indents.
use crate::document::Document;
use doc_tree::Text;

/// A mark of a text. A literal is a value, which comes where its lines end.
#[derive(Drop)]
pub(crate) enum Mark {
    /// The dash of an item, at its column.
    Dash(usize),
    /// A key, at its column.
    Key(usize, Text),
    /// A value on the line of its dash or key.
    Value(Document),
    /// A value on a line of its own, which stands only alone in a text.
    Bare(Document),
}
