//! What a host offers.
/// What a host offers besides files and directories.
#[derive(Clone, Copy, Debug, PartialEq, Eq, Drop)]
pub struct Caps {
    /// It can make links.
    pub links: bool,
    /// It can set modes.
    pub modes: bool,
}
