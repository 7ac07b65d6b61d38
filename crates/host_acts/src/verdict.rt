//! What an act comes to.
use crate::cause::Cause;

/// What an act comes to.
#[derive(Clone, Copy, Debug, PartialEq, Eq, Drop)]
pub enum Verdict {
    /// What it wants held already, and nothing was changed.
    UpToDate,
    /// What it wants holds now.
    Updated,
    /// It can't be done, and nothing was changed.
    Failed(Cause),
}
