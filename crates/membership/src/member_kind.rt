//! The kinds of members that a group has.

/// What a member of a group is.
#[derive(Clone, Copy, Debug, PartialEq, Eq, Drop)]
pub enum MemberKind {
    User,
    Client,
    /// A group within the group: whoever belongs to it belongs to the group.
    Group,
}
