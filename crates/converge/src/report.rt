//! The report of a run.
use doc_tree::Texts;

/// The report of a run: a line for each act, in order, and for a run that is done one more.
#[derive(Drop)]
pub struct Report {
    pub lines: Texts,
}
