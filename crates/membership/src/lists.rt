//! Lists of users, clients and groups, of which `Groups` are built.

use doc_tree::{Listed, Name, Names};

/// A group with its members.
#[derive(Drop)]
pub struct GroupRow {
    pub name: Name,
    pub users: Names,
    pub clients: Names,
    /// Groups within the group.
    pub groups: Names,
}

/// Groups, in any order.
pub type GroupRows = Listed<GroupRow>;

/// An organisation's users, its clients and its groups.
#[derive(Drop)]
pub struct GroupLists {
    pub users: Names,
    pub clients: Names,
    pub groups: GroupRows,
}
