//! Why something outside isn't opened.

use thiserror::Error;

/// Why something outside, as a keeper, isn't opened.
#[derive(Clone, Copy, Debug, PartialEq, Eq, Drop, Error)]
pub enum OpenFault {
    /// It was refused, and whoever was to open it counted that.
    #[error("not opened")]
    Failed,
    /// Memory ran out.
    #[error("out of memory")]
    NoMemory,
}
